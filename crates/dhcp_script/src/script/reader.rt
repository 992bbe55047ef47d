//! The reader of a script of either family.

ghost use Rattle.std.specs.Prelude.{if◌then◌else◌, ◌==◌, length, None, Some};
ghost use Rattle.dhcp_stream.specs.TextReader.{tag_at, Finds, Takes};
ghost use Rattle.dhcp_script.specs.ScriptReader.{script_at, script_in};
ghost use Rattle.dhcp_script.specs.Version.{first_line6};

use crate::Script;
use crate::script4::reader::read_script4;
use crate::script6::reader::read_script6;
use crate::version::Version;
use dhcp_stream::{ReadError, TextReader};
use std::alloc::Global;

/// Reads a script, which is the whole text, in a version.
#[tactic(auto, unfolding(crate::specs::ScriptReader::script_in))]
pub fn read_whole_script(alloc: Global, version: Version, text: &[u8]) -> Result<Script, ReadError>
    ensures { Finds result (script_in version text.now) }
{
    let mut text = TextReader::new(text);
    let script = read_front(alloc, version, &mut text)?;
    at_end(&text, script)
}

/// What was read, if it was the whole text; else `Malformed`. Does not allocate.
pub fn at_end<T: Drop>(text: &TextReader, read: T) -> Result<T, ReadError>
    ensures { Finds result (if length text.now == 0 then Some read else None) }
{
    if text.is_at_end() {
        Ok(read)
    } else {
        Err(ReadError::Malformed)
    }
}

// Reads a script in a version from the front of a text.
#[tactic(auto, unfolding(crate::specs::ScriptReader::script_at))]
fn read_front(alloc: Global, version: Version, text: &mut TextReader) -> Result<Script, ReadError>
    ensures { Takes result text.new (script_at version text.old) }
{
    if text.skip(b"dhcp4 ") {
        return Ok(Script::V4(read_script4(alloc, version, text)?));
    }
    skip_first_line6(version, text)?;
    Ok(Script::V6(read_script6(alloc, version, text)?))
}

// Skips the first line of a script of an IPv6 client.
fn skip_first_line6(version: Version, text: &mut TextReader) -> Result<(), ReadError>
    ensures { Takes result text.new (tag_at (first_line6 version) text.old) }
{
    match version {
        Version::One => text.tag(b"dhcp6 1\n"),
        Version::Later => text.tag(b"dhcp6 2\n"),
    }
}
