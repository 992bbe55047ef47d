//! A relay message in the bytes that it was received in, RFC 8415 section 9.

ghost use Rattle.std.specs.Prelude.{◌≡◌, option_copied};
ghost use Rattle.dhcp_wire.specs.Outcome.{Finds, Makes};
ghost use Rattle.dhcp_wire.specs.RawOption.{raw_options};
ghost use Rattle.dhcp6_relay.specs.Layer as layers;
ghost use Rattle.dhcp6_relay.specs.Outcome.{Answers, Gives};
ghost use Rattle.dhcp6_relay.specs.Relay as relays;

use crate::error::out_of_memory;
use crate::layer::{HEADER_LEN, INTERFACE_ID, Layer, RELAY_FORWARD, RELAY_MESSAGE, RELAY_REPLY};
use crate::{Relay, RelayError};
use dhcp_wire::{Buffer, Bytes, DhcpError, OptionFormat, RawOptions};
use std::alloc::Global;
use std::marker::Model;

/// A relay message in the bytes that it was received in. Contracts see it as the relay message that
/// the bytes read as.
#[derive(Debug, Drop)]
pub struct RelayView<'a> {
    /// Whether it is a Relay-forward, and not a Relay-reply.
    pub forward: bool,
    /// What the relay agent wrote of the message that it received.
    pub layer: Layer<'a>,
    /// The message that is relayed.
    pub inner: &'a [u8],
}

impl<'a> Model for RelayView<'a> {
    ghost use Rattle.dhcp6_relay.specs.declared.relay.Relay.{Relay};
    ghost use Rattle.dhcp6_relay.specs.contracts.relay.Relay as relay;

    ghost Value = { Relay };

    ghost coded = { relay.the_row.coded };

    ghost use Rattle.dhcp6_relay.specs.View.{relay_of};

    ghost view = { relay_of };
}

impl<'a> RelayView<'a> {
    /// The relay message that the bytes read as. In this order: `NotRelay` if the first byte is not
    /// 12 or 13, `Short` if there are fewer than 34 bytes, `NoMessage` if there is no Relay Message
    /// option. Does not allocate.
    #[tactic(auto, unfolding(crate::specs::Relay::parsed_relay))]
    pub fn read(bytes: &'a [u8]) -> Result<Self, RelayError>
        ensures { Answers (λ view. view) result (relays.parsed_relay bytes.now) }
    {
        Self::of_bytes(bytes).ok_or(refusal_of(bytes))
    }

    // The relay message that the bytes read as, if they do.
    #[tactic(auto, unfolding(crate::specs::Relay::read_relay))]
    fn of_bytes(bytes: &'a [u8]) -> Option<Self>
        ensures { Finds (λ view. view) result (relays.read_relay bytes.now) }
    {
        let mut buf = Buffer::new(bytes);
        let forward = direction_of(buf.get_u8().ok()?)?;
        let hops = buf.get_u8().ok()?;
        let link = buf.get_ipv6().ok()?;
        let peer = buf.get_ipv6().ok()?;
        let options = buf.get_remains();
        let inner = first_value(options, RELAY_MESSAGE)?;
        let interface = first_value(options, INTERFACE_ID);
        Some(RelayView {
            forward,
            layer: Layer {
                hops,
                link,
                peer,
                interface,
            },
            inner,
        })
    }

    /// A copy of it; out of memory is the only error.
    pub fn to_relay(&self, alloc: Global) -> Result<Relay, RelayError>
        ensures { Gives (λ relay. relay) result (Ok self.now) }
    {
        match self.copy(alloc) {
            Ok(relay) => Ok(relay),
            Err(error) => Err(out_of_memory(error)),
        }
    }

    // A copy of it.
    fn copy(&self, alloc: Global) -> Result<Relay, DhcpError>
        ensures { Makes (λ relay. relay) result self.now }
    {
        let interface = match self.layer.interface {
            Some(id) => Some(Bytes::from_slice(alloc, id)?),
            None => None,
        };
        Ok(Relay {
            forward: self.forward,
            hops: self.layer.hops,
            link: self.layer.link,
            peer: self.layer.peer,
            interface,
            inner: Bytes::from_slice(alloc, self.inner)?,
        })
    }
}

/// Whether a message is a Relay-forward.
pub fn is_forward(bytes: &[u8]) -> bool
    ensures { result ≡ layers.is_forward bytes.now }
{
    is_of_type(bytes, RELAY_FORWARD)
}

// Whether a message is of this type.
fn is_of_type(bytes: &[u8], number: u8) -> bool
    ensures { result ≡ layers.is_of_type number bytes.now }
{
    match bytes {
        [] => false,
        [first, ..] => *first == number,
    }
}

// Why some bytes do not read.
fn refusal_of(bytes: &[u8]) -> RelayError
    ensures { result ≡ relays.refusal_of bytes.now }
{
    if !is_forward(bytes) && !is_of_type(bytes, RELAY_REPLY) {
        RelayError::NotRelay
    } else if bytes.len() < HEADER_LEN {
        RelayError::Short
    } else {
        RelayError::NoMessage
    }
}

// The direction of a relay message of this type.
fn direction_of(msg_type: u8) -> Option<bool>
    ensures { result ≡ relays.direction_of msg_type }
{
    match msg_type {
        RELAY_FORWARD => Some(true),
        RELAY_REPLY => Some(false),
        _ => None,
    }
}

// The value of the first option of this code.
fn first_value(options: &[u8], code: u16) -> Option<&[u8]>
    ensures { option_copied result
        ≡ relays.first_value code (raw_options OptionFormat.DhcpV6 options.now) }
{
    let mut left = RawOptions::new(OptionFormat::DhcpV6, options);
    while let Some(option) = left.next() {
        if option.code == code {
            return Some(option.value);
        }
    }
    None
}
