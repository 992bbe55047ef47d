//! The reader of a script of a client for configuration alone.

ghost use Rattle.std.specs.Prelude.{◌≡◌};
ghost use Rattle.dhcp_stream.specs.TextReader.{Finds, Takes};
ghost use Rattle.dhcp6_info_play.specs.InfoScript.{has_release, is_release};
ghost use Rattle.dhcp6_info_play.specs.Reader.{iface_at, life_at, script_at, script_in};

use dhcp_script::field::read_field;
use dhcp_script::life::{Life, read_life};
use dhcp_script::script::reader::at_end;
use dhcp_script::script6::reader::{read_identity, read_mac};
use dhcp_script::{Event, EventWhat, Script6};
use dhcp_stream::{ReadError, TextReader};
use dhcp6_msg::DhcpV6Mode;
use std::alloc::Global;
use std::net::Ipv6Addr;

// What the line `iface` says.
#[derive(Drop)]
struct Iface {
    index: u32,
    src_ip: Ipv6Addr,
    mac: Option<[u8; 6]>,
    timeout_sec: u32,
}

/// Reads a script, which is the whole text. `Malformed` only if the text is not one of a script;
/// out of memory is the only other error.
#[tactic(auto, unfolding(crate::specs::Reader::script_in))]
pub fn read_whole_script(alloc: Global, text: &[u8]) -> Result<Script6, ReadError>
    ensures { Finds result (script_in text.now) }
{
    let mut text = TextReader::new(text);
    let script = read_script(alloc, &mut text)?;
    at_end(&text, script)
}

// Reads a script from the front of a text.
#[tactic(auto, unfolding(crate::specs::Reader::script_at))]
fn read_script(alloc: Global, text: &mut TextReader) -> Result<Script6, ReadError>
    ensures { Takes result text.new (script_at text.old) }
{
    text.tag(b"dhcp6info 1\n")?;
    let iface = read_iface(alloc, text)?;
    let identity = read_identity(alloc, text)?;
    let life = read_own_life(alloc, text)?;
    let mac = iface.mac;
    Ok(Script6 {
        iface_index: iface.index,
        src_ip: iface.src_ip,
        mac,
        mode: DhcpV6Mode::NonTemporaryAddresses,
        timeout_sec: iface.timeout_sec,
        duid: identity.duid,
        codes: identity.codes,
        lease: None,
        words: life.words,
        start: life.start,
        events: life.events,
    })
}

// Reads the line `iface`.
#[tactic(auto, unfolding(crate::specs::Reader::iface_at))]
fn read_iface(alloc: Global, text: &mut TextReader) -> Result<Iface, ReadError>
    ensures { Takes result text.new (iface_at text.old) }
{
    text.tag(b"iface ")?;
    Ok(Iface {
        index: text.u32(b' ')?,
        src_ip: read_field(alloc, text, b' ')?,
        mac: read_mac(text)?,
        timeout_sec: text.u32(b'\n')?,
    })
}

// Reads the lines from `words` to `end`, among which there is no `release`.
#[tactic(auto, unfolding(crate::specs::Reader::life_at))]
fn read_own_life(alloc: Global, text: &mut TextReader) -> Result<Life, ReadError>
    ensures { Takes result text.new (life_at text.old) }
{
    let life = read_life(alloc, text)?;
    if has_release(life.events.as_slice()) {
        return Err(ReadError::Malformed);
    }
    Ok(life)
}

// Whether one of these events is a release.
fn has_release(events: &[Event]) -> bool
    ensures { result ≡ has_release events.now }
{
    events.iter().any(is_release)
}

// Whether an event is a release.
fn is_release(event: &Event) -> bool
    ensures { result ≡ is_release event.now }
{
    matches!(event.what, EventWhat::Release)
}
