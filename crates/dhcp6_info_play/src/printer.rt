//! The printer of a script of a client for configuration alone.

ghost use Rattle.std.specs.Prelude.{◌≡◌, ◌++◌, OnOk, codes, string_bytes};
ghost use Rattle.dhcp_stream.specs.Line.{line};
ghost use Rattle.dhcp6_info_play.specs.InfoScript.{first_lines, iface_text, info_script_text};

use dhcp_script::codes::push_codes;
use dhcp_script::life::printer::push_life;
use dhcp_script::script6::printer::push_addresses;
use dhcp_script::{Script6, push_hex_line};
use std::alloc::AllocError;

/// Puts the text of a script at the end of a text. After an error, which is out of memory, a part
/// of it may be there.
pub fn push_info_script(text: &mut String, script: &Script6) -> Result<(), AllocError>
    ensures { OnOk result (string_bytes text.new
        ≡ string_bytes text.old ++ info_script_text script.now) }
{
    push_first_lines(text, script)?;
    push_codes(text, &script.codes)?;
    push_life(text, &script.words, script.start, &script.events)
}

// Puts the lines up to that of the identifier at the end of a text.
fn push_first_lines(text: &mut String, script: &Script6) -> Result<(), AllocError>
    ensures { OnOk result (string_bytes text.new
        ≡ string_bytes text.old ++ first_lines script.now) }
{
    text.push_str("dhcp6info 1\n")?;
    push_iface(text, script)?;
    push_hex_line(text, "duid ", script.duid.as_slice())
}

// Puts the line `iface` at the end of a text: the index of the interface, the two addresses and the
// time limit in seconds.
fn push_iface(text: &mut String, script: &Script6) -> Result<(), AllocError>
    ensures { OnOk result (string_bytes text.new
        ≡ string_bytes text.old ++ line (codes "iface " ++ iface_text script.now)) }
{
    let index = script.iface_index;
    let timeout_sec = script.timeout_sec;
    write!(text, "iface {index} ")?;
    push_addresses(text, script)?;
    write!(text, "{timeout_sec}\n")
}
