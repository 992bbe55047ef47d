//! The text of a script of a client for configuration alone, which is a script of an IPv6 client
//! that asks for no address: its mode is not written, and it has no lease and no event `release`.

ghost use Rattle.std.specs.Prelude.{◌≡◌, Some};
ghost use Rattle.dhcp_wire.specs.Outcome.{Makes};
ghost use Rattle.dhcp_stream.specs.Reading.{GivesReading};
ghost use Rattle.dhcp_script.specs.declared.script6.Script6.{Script6};
ghost use Rattle.dhcp6_info_play.specs.InfoScript.{IsInfoScript, info_script_text};

use crate::printer::push_info_script;
use crate::reader::read_whole_script;
use dhcp_script::Script6;
use dhcp_stream::ReadError;
use dhcp_wire::{Bytes, DhcpError};
use std::alloc::{AllocError, Global};

/// The script of a text; its mode is that of IA_NA, and its lease is absent. None if and only if no
/// script has this text; no text is that of two scripts. Out of memory is the only error.
pub fn read_info_script(alloc: Global, text: &[u8]) -> Result<Option<Script6>, DhcpError>
    ensures reading { GivesReading info_script_text IsInfoScript result text.now }
    ensures one { (script : Script6) → IsInfoScript script → info_script_text script ≡ text.now →
        Makes (λ read. read) result (Some script) }
{
    match read_whole_script(alloc, text) {
        Ok(script) => Ok(Some(script)),
        Err(ReadError::Malformed) => Ok(None),
        Err(ReadError::OutOfMemory) => Err(DhcpError::from(AllocError)),
    }
}

/// The text of a script, without its mode and its lease. Out of memory is the only error.
pub fn write_info_script(alloc: Global, script: &Script6) -> Result<Bytes, DhcpError>
    ensures { Makes (λ text. text) result (info_script_text script.now) }
{
    let mut text = String::new(alloc);
    push_info_script(&mut text, script)?;
    Ok(Bytes::from(text.into_bytes()))
}
