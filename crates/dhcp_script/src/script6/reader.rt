//! The reader of the script of an IPv6 client.

ghost use Rattle.dhcp_stream.specs.TextReader.{in_field, mac_in, Finds, Takes};
ghost use Rattle.dhcp_script.specs.ScriptReader.{
  identity6_at,
  iface6_at,
  mac_or_none_in,
  mode_at,
  script6_at,
};

use crate::Script6;
use crate::codes::read_codes;
use crate::field::read_field;
use crate::held::read_lease_and_life;
use crate::version::Version;
use dhcp_stream::{ReadError, TextReader, mac_field};
use dhcp_wire::{Bytes, Sequence};
use dhcp6_msg::DhcpV6Mode;
use std::alloc::Global;
use std::net::Ipv6Addr;

// What the line `iface` says.
#[derive(Drop)]
struct Iface6 {
    index: u32,
    src_ip: Ipv6Addr,
    mac: Option<[u8; 6]>,
    mode: DhcpV6Mode,
    timeout_sec: u32,
}

/// What the lines `duid` and `codes` say.
#[derive(Drop)]
pub struct Identity6 {
    /// The bytes of the identifier; empty is none.
    pub duid: Bytes,
    /// The codes that are listed; none is the default list.
    pub codes: Option<Sequence<u16>>,
}

/// Reads a script in a version, after its first line. `Malformed` only if the text does not go on
/// with one; out of memory is the only other error.
#[tactic(auto, unfolding(crate::specs::ScriptReader::script6_at))]
pub fn read_script6(
    alloc: Global,
    version: Version,
    text: &mut TextReader,
) -> Result<Script6, ReadError>
    ensures { Takes result text.new (script6_at version text.old) }
{
    let iface = read_iface(alloc, text)?;
    let identity = read_identity(alloc, text)?;
    let (lease, life) = read_lease_and_life(alloc, version, text)?;
    let mac = iface.mac;
    Ok(Script6 {
        iface_index: iface.index,
        src_ip: iface.src_ip,
        mac,
        mode: iface.mode,
        timeout_sec: iface.timeout_sec,
        duid: identity.duid,
        codes: identity.codes,
        lease,
        words: life.words,
        start: life.start,
        events: life.events,
    })
}

// Reads the line `iface`.
#[tactic(auto, unfolding(crate::specs::ScriptReader::iface6_at))]
fn read_iface(alloc: Global, text: &mut TextReader) -> Result<Iface6, ReadError>
    ensures { Takes result text.new (iface6_at text.old) }
{
    text.tag(b"iface ")?;
    Ok(Iface6 {
        index: text.u32(b' ')?,
        src_ip: read_field(alloc, text, b' ')?,
        mac: read_mac(text)?,
        mode: read_mode(alloc, text)?,
        timeout_sec: text.u32(b'\n')?,
    })
}

/// Reads a MAC address, or `-` for none, and the space after it. `Malformed` if and only if the
/// text does not go on with them.
pub fn read_mac(text: &mut TextReader) -> Result<Option<[u8; 6]>, ReadError>
    ensures { Takes result text.new (in_field mac_or_none_in 32 text.old) }
{
    let field = text.field(b' ')?;
    if field == b"-".as_slice() {
        return Ok(None);
    }
    Ok(Some(mac(field)?))
}

// Reads what a client asks for, and the space after it: `na`, `ta`, or `pd` and a prefix length in
// bits.
#[tactic(auto, unfolding(crate::specs::ScriptReader::mode_at))]
fn read_mode(alloc: Global, text: &mut TextReader) -> Result<DhcpV6Mode, ReadError>
    ensures { Takes result text.new (mode_at text.old) }
{
    if text.skip(b"na ") {
        return Ok(DhcpV6Mode::NonTemporaryAddresses);
    }
    if text.skip(b"ta ") {
        return Ok(DhcpV6Mode::TemporaryAddresses);
    }
    text.tag(b"pd ")?;
    Ok(DhcpV6Mode::PrefixDelegation(read_field(alloc, text, b' ')?))
}

/// Reads the lines `duid` and `codes`. `Malformed` only if the text does not go on with them; out
/// of memory is the only other error.
#[tactic(auto, unfolding(crate::specs::ScriptReader::identity6_at))]
pub fn read_identity(alloc: Global, text: &mut TextReader) -> Result<Identity6, ReadError>
    ensures { Takes result text.new (identity6_at text.old) }
{
    text.tag(b"duid ")?;
    let duid = text.hex(alloc, b'\n')?;
    let codes = read_codes(alloc, text)?;
    Ok(Identity6 { duid, codes })
}

// The MAC address of a field of twelve lower-case hex digits.
fn mac(field: &[u8]) -> Result<[u8; 6], ReadError>
    ensures { Finds result (mac_in field.now) }
{
    mac_field(field).ok_or(ReadError::Malformed)
}
