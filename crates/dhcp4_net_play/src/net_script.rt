//! The text of the script of a network.

ghost use Rattle.std.specs.Prelude.{◌≡◌, Some};
ghost use Rattle.dhcp_wire.specs.Outcome.{Makes};
ghost use Rattle.dhcp_stream.specs.Reading.{GivesReading};
ghost use Rattle.dhcp4_net.specs.declared.script.NetScript.{NetScript};
ghost use Rattle.dhcp4_net_play.specs.NetScript.{IsNetScript, net_script_text};

use crate::printer::push_net_script;
use crate::reader::read_whole_script;
use dhcp_stream::ReadError;
use dhcp_wire::{Bytes, DhcpError};
use dhcp4_net::NetScript;
use std::alloc::{AllocError, Global};

/// The script of a text. None if and only if no script has this text; no text is that of two
/// scripts. Out of memory is the only error.
pub fn read_net_script(alloc: Global, text: &[u8]) -> Result<Option<NetScript>, DhcpError>
    ensures reading { GivesReading net_script_text IsNetScript result text.now }
    ensures one { (script : NetScript) → IsNetScript script → net_script_text script ≡ text.now →
        Makes (λ read. read) result (Some script) }
{
    match read_whole_script(alloc, text) {
        Ok(script) => Ok(Some(script)),
        Err(ReadError::Malformed) => Ok(None),
        Err(ReadError::OutOfMemory) => Err(DhcpError::from(AllocError)),
    }
}

/// The text of a script. Out of memory is the only error.
pub fn write_net_script(alloc: Global, script: &NetScript) -> Result<Bytes, DhcpError>
    ensures { Makes (λ text. text) result (net_script_text script.now) }
{
    let mut text = String::new(alloc);
    push_net_script(&mut text, script)?;
    Ok(Bytes::from(text.into_bytes()))
}
