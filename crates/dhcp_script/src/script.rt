//! Scripts of a client, and their texts.

pub mod reader;

ghost use Rattle.std.specs.Prelude.{◌≡◌, Some, option_map};
ghost use Rattle.dhcp_wire.specs.Outcome.{Makes};
ghost use Rattle.dhcp_stream.specs.Reading.{GivesReading};
ghost use Rattle.dhcp_script.specs.declared.script.Script.{Script};
ghost use Rattle.dhcp_script.specs.Script as scripts;
ghost use Rattle.dhcp_script.specs.Script.{
  script_text,
  script_text_v1,
  text_in,
  GivesUpgrade,
  HasTextIn,
  IsScript,
  IsScriptV1,
};

use crate::script4::printer::push_script4;
use crate::script6::printer::push_script6;
use crate::version::Version;
use crate::{Script4, Script6};
use dhcp_stream::ReadError;
use dhcp_wire::{Bytes, DhcpError};
use std::alloc::{AllocError, Global};

/// A script: all that happens to a client.
#[derive(Debug, PartialEq, Drop)]
pub enum Script {
    /// A script of an IPv4 client.
    V4(Script4),
    /// A script of an IPv6 client.
    V6(Script6),
}

impl Script {
    /// Whether it is within its limits.
    pub fn is_valid(&self) -> bool
        ensures { result ≡ scripts.is_valid self.now }
    {
        match self {
            Script::V4(script) => script.is_valid(),
            Script::V6(script) => script.is_valid(),
        }
    }
}

/// The script of a text, in version 2, or of an IPv4 client in version 3. None if and only if no
/// script has this text; no text is that of two scripts. Out of memory is the only error.
pub fn read_script(alloc: Global, text: &[u8]) -> Result<Option<Script>, DhcpError>
    ensures reading { GivesReading script_text IsScript result text.now }
    ensures one { (script : Script) → IsScript script → script_text script ≡ text.now →
        Makes (λ read. read) result (Some script) }
{
    read_version(alloc, Version::Later, text)
}

/// The script of a text in version 1, which has the first fields of a lease alone, six of an IPv4
/// lease and nine of an IPv6 lease; its other fields are those of the empty lease. None if and only
/// if no script has this version 1 text; no text is that of two scripts. Out of memory is the only
/// error.
pub fn read_script_v1(alloc: Global, text: &[u8]) -> Result<Option<Script>, DhcpError>
    ensures reading { GivesReading script_text_v1 IsScriptV1 result text.now }
    ensures one { (script : Script) → IsScriptV1 script → script_text_v1 script ≡ text.now →
        Makes (λ read. read) result (Some script) }
{
    read_version(alloc, Version::One, text)
}

/// The text, in version 2, of the script that has this text in version 1. None if and only if no
/// script has it.
/// Out of memory is the only error.
pub fn upgrade(alloc: Global, text: &[u8]) -> Result<Option<Bytes>, DhcpError>
    ensures upgrading { GivesUpgrade result text.now }
    ensures one { (script : Script) → IsScriptV1 script → script_text_v1 script ≡ text.now →
        Makes (λ new. new) result (Some (script_text script)) }
{
    let script = read_script_v1(alloc, text)?;
    let text = text_of(alloc, &script);
    drop(script);
    text
}

// The text of a script, if there is one.
fn text_of(alloc: Global, script: &Option<Script>) -> Result<Option<Bytes>, DhcpError>
    ensures { Makes (λ text. text) result (option_map script_text script.now) }
{
    match script {
        None => Ok(None),
        Some(script) => Ok(Some(write_script(alloc, script)?)),
    }
}

// The script of a text in a version.
fn read_version(alloc: Global, version: Version, text: &[u8]) -> Result<Option<Script>, DhcpError>
    ensures reading { GivesReading (text_in version) (HasTextIn version) result text.now }
    ensures one { (script : Script) → HasTextIn version script →
        text_in version script ≡ text.now → Makes (λ read. read) result (Some script) }
{
    match reader::read_whole_script(alloc, version, text) {
        Ok(script) => Ok(Some(script)),
        Err(ReadError::Malformed) => Ok(None),
        Err(ReadError::OutOfMemory) => Err(DhcpError::from(AllocError)),
    }
}

/// The text of a script, in version 2, or in version 3 if it says the forms of its client's
/// messages. Out of memory is the only error.
pub fn write_script(alloc: Global, script: &Script) -> Result<Bytes, DhcpError>
    ensures { Makes (λ text. text) result (script_text script.now) }
{
    let mut text = String::new(alloc);
    match script {
        Script::V4(script) => push_script4(&mut text, script)?,
        Script::V6(script) => push_script6(&mut text, script)?,
    }
    Ok(Bytes::from(text.into_bytes()))
}
