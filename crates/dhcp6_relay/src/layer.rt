//! The layers of a relayed message, RFC 8415 section 9: how they are written around a message.

ghost use Rattle.std.specs.Prelude.{◌≡◌, ◌+◌, ◌++◌, ◌≤◌, ◌^◌, IfErr, IfOk, length, option_copied, sum_by};
ghost use Rattle.std.specs.Int.{w16, to_be_bytes};
ghost use Rattle.dhcp_wire.specs.Error.{no_memory};
ghost use Rattle.dhcp_wire.specs.Outcome.{Makes};
ghost use Rattle.dhcp6_relay.specs.Layer.{
  layers_around,
  layer_length,
  relay_message,
  type_number,
  written_header,
  written_interface,
  written_option,
};
ghost use Rattle.dhcp6_relay.specs.Outcome.{Gives, within_limit, length_within_limit, most_bytes};

use crate::RelayError;
use crate::error::out_of_memory;
use dhcp_wire::{BufferMut, Bytes, DhcpError};
use std::alloc::Global;
use std::marker::Model;
use std::net::Ipv6Addr;

/// The type of a Relay-forward, its first byte.
pub const RELAY_FORWARD: u8 = 12;

/// The type of a Relay-reply.
pub const RELAY_REPLY: u8 = 13;

/// The code of the Relay Message option.
pub const RELAY_MESSAGE: u16 = 9;

/// The code of the Interface-Id option.
pub const INTERFACE_ID: u16 = 18;

/// How many bytes stand before the options of a relay message.
pub const HEADER_LEN: usize = 34;

// How many bytes stand before the value of an option: its code and its length.
const OPTION_HEADER_LEN: usize = 4;

// How many bytes a message has at most.
const MAX_LEN: usize = 65535;

/// What a relay agent writes of a message that it received.
#[derive(Debug, Drop)]
pub struct Layer<'a> {
    /// How many relay agents relayed the message before it.
    pub hops: u8,
    /// An address of the link that the message came from.
    pub link: Ipv6Addr,
    /// The address of the client or the relay agent that sent it.
    pub peer: Ipv6Addr,
    /// The id of the interface that it came in on, if it is given.
    pub interface: Option<&'a [u8]>,
}

impl<'a> Model for Layer<'a> {
    ghost use Rattle.dhcp6_relay.specs.Layer.{LayerParts};

    ghost Value = { LayerParts };

    ghost use Rattle.dhcp6_relay.specs.View.{parts_of};

    ghost view = { parts_of };
}

impl<'a> Layer<'a> {
    /// How many bytes it adds to the message inside it.
    #[tactic(auto, using(crate::proofs::LayerLemmas::lengths))]
    pub fn len(&self) -> usize
        ensures { result ≡ layer_length self.now }
    {
        let header_len = 2 + self.link.octets().len() + self.peer.octets().len();
        header_len + OPTION_HEADER_LEN + interface_len(self.interface)
    }

    // Writes what stands before the message inside it, which has this length.
    fn write_head(
        &self,
        buf: &mut BufferMut,
        forward: bool,
        inner_len: u16,
    ) -> Result<(), DhcpError>
        ensures ok { IfOk result (λ _. buf.new ≡ buf.old ++ (written_header forward self.now
            ++ (to_be_bytes w16 relay_message ++ to_be_bytes w16 inner_len))) }
        ensures err { IfErr result (λ e. e ≡ no_memory) }
    {
        buf.write_u8(type_number(forward))?;
        buf.write_u8(self.hops)?;
        buf.write_ipv6(self.link)?;
        buf.write_ipv6(self.peer)?;
        buf.write_u16_be(RELAY_MESSAGE)?;
        buf.write_u16_be(inner_len)
    }

    // Writes what stands after the message inside it.
    #[tactic(auto, using(crate::proofs::LayerLemmas::interface_ids))]
    fn write_tail(&self, buf: &mut BufferMut) -> Result<(), DhcpError>
        requires { layer_length self.now ≤ most_bytes }
        ensures ok { IfOk result (λ _. buf.new ≡ buf.old
            ++ written_interface self.now.interface) }
        ensures err { IfErr result (λ e. e ≡ no_memory) }
    {
        match self.interface {
            Some(id) => write_option(buf, INTERFACE_ID, id),
            None => Ok(()),
        }
    }
}

// How many bytes the option of an interface id is.
#[tactic(auto, using(crate::proofs::LayerLemmas::length_of_option))]
fn interface_len(interface: Option<&[u8]>) -> usize
    ensures len { result ≡ length (written_interface (option_copied interface.entry)) }
    ensures small { result ≤ 2 ^ 63 + 4 }
{
    match interface {
        Some(id) => option_len(id),
        None => 0,
    }
}

// How many bytes an option with this value is.
fn option_len(value: &[u8]) -> usize
    ensures len { result ≡ 4 + length value.now }
    ensures small { result ≤ 2 ^ 63 + 4 }
{
    OPTION_HEADER_LEN + value.len()
}

// Writes an option.
#[tactic(auto, using(crate::proofs::LayerLemmas::written_options))]
fn write_option(buf: &mut BufferMut, code: u16, value: &[u8]) -> Result<(), DhcpError>
    requires { length value.now ≤ most_bytes }
    ensures ok { IfOk result (λ _. buf.new ≡ buf.old ++ written_option code value.now) }
    ensures err { IfErr result (λ e. e ≡ no_memory) }
{
    buf.write_u16_be(code)?;
    buf.write_u16_be(value.len() as u16)?;
    buf.write_bytes(value)
}

// The type of a relay message, forward or in reply.
fn type_number(forward: bool) -> u8
    ensures { result ≡ type_number forward }
{
    if forward { RELAY_FORWARD } else { RELAY_REPLY }
}

/// Layers around a message, the first of them outmost. `TooLong` if and only if that is more than
/// 65,535 bytes; else out of memory is the only error.
#[tactic(auto, using(crate::proofs::LayerLemmas::lengths_around))]
pub fn emit_around(
    alloc: Global,
    forward: bool,
    layers: &[Layer<'_>],
    message: &[u8],
) -> Result<Bytes, RelayError>
    ensures { Gives (λ bytes. bytes) result
        (within_limit (layers_around forward layers.now message.now)) }
{
    let len = len_around(layers, message.len())?;
    match bytes_around(alloc, forward, layers, message, len) {
        Ok(bytes) => Ok(bytes),
        Err(error) => Err(out_of_memory(error)),
    }
}

// How many bytes layers around a message of this length are. `TooLong` if and only if they are more
// than a message has at most.
fn len_around(layers: &[Layer<'_>], message_len: usize) -> Result<usize, RelayError>
    ensures { result ≡ length_within_limit (message_len + sum_by layer_length layers.now) }
{
    let mut len = message_len;
    for layer in layers {
        len = len.saturating_add(layer.len());
    }
    if len <= MAX_LEN {
        Ok(len)
    } else {
        Err(RelayError::TooLong)
    }
}

// Layers around a message, which are so many bytes.
fn bytes_around(
    alloc: Global,
    forward: bool,
    layers: &[Layer<'_>],
    message: &[u8],
    len: usize,
) -> Result<Bytes, DhcpError>
    requires whole { len ≡ length (layers_around forward layers.now message.now) }
    requires short { len ≤ most_bytes }
    ensures { Makes (λ bytes. bytes) result (layers_around forward layers.now message.now) }
{
    let mut buf = BufferMut::with_capacity(alloc, len)?;
    write_around(&mut buf, forward, layers, message, len)?;
    Ok(buf.into_bytes())
}

// Writes layers around a message, which are so many bytes. Each head is written before the message
// inside it, whose length is known, and so nothing is moved.
#[tactic(auto, using(crate::proofs::LayerLemmas::layers_written))]
fn write_around(
    buf: &mut BufferMut,
    forward: bool,
    layers: &[Layer<'_>],
    message: &[u8],
    len: usize,
) -> Result<(), DhcpError>
    requires whole { len ≡ length (layers_around forward layers.now message.now) }
    requires short { len ≤ most_bytes }
    ensures ok { IfOk result (λ _. buf.new
        ≡ buf.old ++ layers_around forward layers.now message.now) }
    ensures err { IfErr result (λ e. e ≡ no_memory) }
{
    let Some((layer, inside)) = layers.split_first() else {
        return buf.write_bytes(message);
    };
    let inner_len = len - layer.len();
    layer.write_head(buf, forward, inner_len as u16)?;
    write_around(buf, forward, inside, message, inner_len)?;
    layer.write_tail(buf)
}
