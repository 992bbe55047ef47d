//! The reader of the script of an IPv4 client.

ghost use Rattle.std.specs.Prelude.{None};
ghost use Rattle.dhcp_stream.specs.TextReader.{tag_at, Skips, Takes};
ghost use Rattle.dhcp_script.specs.ScriptReader.{
  forms_at,
  head4_at,
  identity4_at,
  iface4_at,
  number3_at,
  script4_at,
};
ghost use Rattle.dhcp_script.specs.Version.{number4};

use crate::Script4;
use crate::codes::read_codes;
use crate::field::flag;
use crate::held::read_lease_and_life;
use crate::version::Version;
use dhcp_stream::{ReadError, TextReader};
use dhcp_wire::Bytes;
use dhcp4_lease::DhcpV4MessageForms;
use std::alloc::Global;

// What the line `iface` says, and the line `forms`, if there is one.
#[derive(Drop)]
struct Head4 {
    iface: Iface4,
    forms: Option<DhcpV4MessageForms>,
}

// What the line `iface` says.
#[derive(Drop)]
struct Iface4 {
    index: u32,
    mac: [u8; 6],
    is_proxy: bool,
    timeout_sec: u32,
}

// What the lines `host`, `client` and `codes` say.
#[derive(Drop)]
struct Identity4 {
    host: Bytes,
    client: Bytes,
    codes: Option<Bytes>,
}

/// Reads a script in a version, from the number of that in its first line on. `Malformed` only if
/// the text does not go on with one; out of memory is the only other error.
#[tactic(auto, unfolding(crate::specs::ScriptReader::script4_at))]
pub fn read_script4(
    alloc: Global,
    version: Version,
    text: &mut TextReader,
) -> Result<Script4, ReadError>
    ensures { Takes result text.new (script4_at version text.old) }
{
    let head = read_head(version, text)?;
    let identity = read_identity(alloc, text)?;
    let (lease, life) = read_lease_and_life(alloc, version, text)?;
    let mac = head.iface.mac;
    Ok(Script4 {
        iface_index: head.iface.index,
        mac,
        is_proxy: head.iface.is_proxy,
        timeout_sec: head.iface.timeout_sec,
        forms: head.forms,
        host: identity.host,
        client: identity.client,
        codes: identity.codes,
        lease,
        words: life.words,
        start: life.start,
        events: life.events,
    })
}

// Reads the number of the version, the line `iface`, and in version 3 the line `forms`.
#[tactic(auto, unfolding(crate::specs::ScriptReader::head4_at))]
fn read_head(version: Version, text: &mut TextReader) -> Result<Head4, ReadError>
    ensures { Takes result text.new (head4_at version text.old) }
{
    if skip_number3(version, text) {
        let iface = read_iface(text)?;
        let forms = read_forms(text)?;
        return Ok(Head4 {
            iface,
            forms: Some(forms),
        });
    }
    skip_number(version, text)?;
    let iface = read_iface(text)?;
    Ok(Head4 { iface, forms: None })
}

// Skips the number of version 3, if the text goes on with it and may be of a later version.
fn skip_number3(version: Version, text: &mut TextReader) -> bool
    ensures { Skips result text.old text.new (number3_at version text.old) }
{
    match version {
        Version::One => false,
        Version::Later => text.skip(b"3\n"),
    }
}

// Skips the number of version 1 or 2.
fn skip_number(version: Version, text: &mut TextReader) -> Result<(), ReadError>
    ensures { Takes result text.new (tag_at (number4 version None) text.old) }
{
    match version {
        Version::One => text.tag(b"1\n"),
        Version::Later => text.tag(b"2\n"),
    }
}

// Reads the line `forms`.
#[tactic(auto, unfolding(crate::specs::ScriptReader::forms_at))]
fn read_forms(text: &mut TextReader) -> Result<DhcpV4MessageForms, ReadError>
    ensures { Takes result text.new (forms_at text.old) }
{
    text.tag(b"forms ")?;
    let is_rfc2131 = flag(text.field(b'\n')?, b"rfc2131", b"mozim")?;
    Ok(if is_rfc2131 {
        DhcpV4MessageForms::Rfc2131
    } else {
        DhcpV4MessageForms::Mozim
    })
}

// Reads the line `iface`.
#[tactic(auto, unfolding(crate::specs::ScriptReader::iface4_at))]
fn read_iface(text: &mut TextReader) -> Result<Iface4, ReadError>
    ensures { Takes result text.new (iface4_at text.old) }
{
    text.tag(b"iface ")?;
    Ok(Iface4 {
        index: text.u32(b' ')?,
        mac: text.mac(b' ')?,
        is_proxy: flag(text.field(b' ')?, b"1", b"0")?,
        timeout_sec: text.u32(b'\n')?,
    })
}

// Reads the lines `host`, `client` and `codes`.
#[tactic(auto, unfolding(crate::specs::ScriptReader::identity4_at))]
fn read_identity(alloc: Global, text: &mut TextReader) -> Result<Identity4, ReadError>
    ensures { Takes result text.new (identity4_at text.old) }
{
    text.tag(b"host ")?;
    let host = text.hex(alloc, b'\n')?;
    text.tag(b"client ")?;
    let client = text.hex(alloc, b'\n')?;
    let codes = read_codes(alloc, text)?;
    Ok(Identity4 {
        host,
        client,
        codes,
    })
}
