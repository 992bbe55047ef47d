//! The printer of the script of an IPv4 client.

ghost use Rattle.std.specs.Prelude.{◌≡◌, ◌++◌, OnOk, codes, string_bytes};
ghost use Rattle.dhcp_stream.specs.Line.{line};
ghost use Rattle.dhcp_script.specs.declared.version.Version.TheVariants.{Later};
ghost use Rattle.dhcp_script.specs.Script4.{first_lines, forms_text, iface_text, script4_text};
ghost use Rattle.dhcp_script.specs.Version.{family4, number4};

use crate::Script4;
use crate::codes::push_codes;
use crate::held::push_held_lease;
use crate::hex_text::push_hex_line;
use crate::life::printer::{push_flag, push_life};
use dhcp_stream::push_octets;
use dhcp4_lease::DhcpV4MessageForms;
use std::alloc::AllocError;

/// Puts the text of a script, in version 2, or 3 if it says the forms of its client's messages, at
/// the end of a text. After an error, which is out of memory, a part of it may be there.
#[tactic(auto, unfolding(crate::specs::Script4::script4_text))]
pub fn push_script4(text: &mut String, script: &Script4) -> Result<(), AllocError>
    ensures { OnOk result (string_bytes text.new
        ≡ string_bytes text.old ++ script4_text Later script.now) }
{
    push_first_lines(text, script)?;
    push_codes(text, &script.codes)?;
    push_held_lease(text, &script.lease)?;
    push_life(text, &script.words, script.start, &script.events)
}

// Puts the lines up to that of the client identifier at the end of a text.
fn push_first_lines(text: &mut String, script: &Script4) -> Result<(), AllocError>
    ensures { OnOk result (string_bytes text.new
        ≡ string_bytes text.old ++ first_lines Later script.now) }
{
    push_first_line(text, script.forms)?;
    push_iface(text, script)?;
    push_forms(text, script.forms)?;
    push_hex_line(text, "host ", script.host.as_slice())?;
    push_hex_line(text, "client ", script.client.as_slice())
}

// Puts the first line at the end of a text.
fn push_first_line(text: &mut String, forms: Option<DhcpV4MessageForms>) -> Result<(), AllocError>
    ensures { OnOk result (string_bytes text.new
        ≡ string_bytes text.old ++ (family4 ++ number4 Later forms)) }
{
    match forms {
        None => text.push_str("dhcp4 2\n"),
        Some(_) => text.push_str("dhcp4 3\n"),
    }
}

// Puts the line `forms` at the end of a text, if the forms are said.
fn push_forms(text: &mut String, forms: Option<DhcpV4MessageForms>) -> Result<(), AllocError>
    ensures { OnOk result (string_bytes text.new ≡ string_bytes text.old ++ forms_text forms) }
{
    match forms {
        None => Ok(()),
        Some(DhcpV4MessageForms::Mozim) => text.push_str("forms mozim\n"),
        Some(DhcpV4MessageForms::Rfc2131) => text.push_str("forms rfc2131\n"),
    }
}

// Puts the line `iface` at the end of a text: the index of the interface, the MAC address, 1 for a
// client that obtains a lease for another host and 0 for any other, and the time limit in seconds.
fn push_iface(text: &mut String, script: &Script4) -> Result<(), AllocError>
    ensures { OnOk result (string_bytes text.new
        ≡ string_bytes text.old ++ line (codes "iface " ++ iface_text script.now)) }
{
    let index = script.iface_index;
    let timeout_sec = script.timeout_sec;
    write!(text, "iface {index} ")?;
    push_octets(text, &script.mac)?;
    text.push(' ')?;
    push_flag(text, script.is_proxy, "1", "0")?;
    write!(text, " {timeout_sec}\n")
}
