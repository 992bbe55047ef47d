//! The printer of the states of a client for configuration alone.

ghost use Rattle.std.specs.Prelude.{◌≡◌, [], ◌∷◌, ◌++◌, OnOk, string_bytes};
ghost use Rattle.dhcp_stream.specs.HexText.{hex_text};
ghost use Rattle.dhcp_script.specs.Field.{unless_none};
ghost use Rattle.dhcp6_opt.specs.Duid.{written_duid};
ghost use Rattle.dhcp6_info.specs.State.{plain_state};
ghost use Rattle.dhcp_output.specs.Info.{
  addresses_text,
  info_text,
  is_empty_name,
  names_text,
  state_text,
  time_servers_text,
};

use dhcp_script::duid::bytes_of;
use dhcp_script::field::FieldText;
use dhcp_script::push_hex;
use dhcp_wire::{Sequence, Text};
use dhcp6_info::{DhcpV6Info, DhcpV6InfoState};
use dhcp6_opt::DhcpV6Duid;
use std::alloc::{AllocError, Global};

/// Puts a state at the end of a text; `done` has the fields of the configuration. After an error,
/// which is out of memory, a part of it may be there.
pub fn push_info_state(
    alloc: Global,
    text: &mut String,
    state: &DhcpV6InfoState,
) -> Result<(), AllocError>
    ensures { OnOk result (string_bytes text.new
        ≡ string_bytes text.old ++ state_text (plain_state state.now)) }
{
    match state {
        DhcpV6InfoState::Done(info) => {
            text.push_str("done ")?;
            push_info(alloc, text, info)
        }
        DhcpV6InfoState::Inform => text.push_str("inform"),
    }
}

// Puts the fields of a configuration at the end of a text, with single spaces between them.
fn push_info(alloc: Global, text: &mut String, info: &DhcpV6Info) -> Result<(), AllocError>
    ensures { OnOk result (string_bytes text.new
        ≡ string_bytes text.old ++ info_text info.now) }
{
    push_servers_more(alloc, text, info)?;
    push_lists_more(text, info)?;
    info.refresh_sec.push_to(text)
}

// Puts the identifier of a server and the name servers at the end of a text, each with a space
// after it.
fn push_servers_more(alloc: Global, text: &mut String, info: &DhcpV6Info) -> Result<(), AllocError>
    ensures { OnOk result (string_bytes text.new ≡ string_bytes text.old
        ++ (hex_text (written_duid info.now.srv_duid)
        ++ 32 ∷ (unless_none addresses_text info.now.dns_srvs ++ 32 ∷ []))) }
{
    push_duid(alloc, text, &info.srv_duid)?;
    text.push(' ')?;
    info.dns_srvs.push_to(text)?;
    text.push(' ')
}

// Puts domains and time servers at the end of a text, each with a space after it.
fn push_lists_more(text: &mut String, info: &DhcpV6Info) -> Result<(), AllocError>
    ensures { OnOk result (string_bytes text.new ≡ string_bytes text.old
        ++ (unless_none names_text info.now.domains
        ++ 32 ∷ (unless_none time_servers_text info.now.ntp ++ 32 ∷ []))) }
{
    push_domains(text, &info.domains)?;
    text.push(' ')?;
    info.ntp.push_to(text)?;
    text.push(' ')
}

// Puts the bytes of an identifier in hex at the end of a text.
fn push_duid(alloc: Global, text: &mut String, duid: &DhcpV6Duid) -> Result<(), AllocError>
    ensures { OnOk result (string_bytes text.new
        ≡ string_bytes text.old ++ hex_text (written_duid duid.now)) }
{
    match bytes_of(alloc, duid) {
        Ok(bytes) => push_hex(text, bytes.as_slice()),
        Err(_) => Err(AllocError),
    }
}

// Puts domains, or the word `none`, at the end of a text.
fn push_domains(text: &mut String, domains: &Option<Sequence<Text>>) -> Result<(), AllocError>
    ensures { OnOk result (string_bytes text.new
        ≡ string_bytes text.old ++ unless_none names_text domains.now) }
{
    match domains {
        None => text.push_str("none"),
        Some(names) => push_names(text, names),
    }
}

// Puts names in hex at the end of a text, with commas between them; a single empty name has a comma
// after it, which tells it from no names.
fn push_names(text: &mut String, names: &Sequence<Text>) -> Result<(), AllocError>
    ensures { OnOk result (string_bytes text.new
        ≡ string_bytes text.old ++ names_text names.now) }
{
    if is_empty_name(names.as_slice()) {
        text.push_str("-,")
    } else {
        names.push_to(text)
    }
}

// Whether these names are a single one, which is empty.
fn is_empty_name(names: &[Text]) -> bool
    ensures { result ≡ is_empty_name names.now }
{
    match names {
        [name] => name.as_str().is_empty(),
        _ => false,
    }
}
