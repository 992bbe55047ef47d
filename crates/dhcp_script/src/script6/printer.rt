//! The printer of the script of an IPv6 client.

ghost use Rattle.std.specs.Prelude.{◌≡◌, ◌++◌, ◌∷◌, [], OnOk, codes, string_bytes};
ghost use Rattle.dhcp_stream.specs.HexText.{address6_text};
ghost use Rattle.dhcp_stream.specs.Line.{line};
ghost use Rattle.dhcp_script.specs.declared.version.Version.TheVariants.{Later};
ghost use Rattle.dhcp_script.specs.Script6.{
  first_lines,
  iface_text,
  mac_text,
  mode_text,
  script6_text,
};

use crate::Script6;
use crate::codes::push_codes;
use crate::held::push_held_lease;
use crate::hex_text::push_hex_line;
use crate::life::printer::push_life;
use dhcp_stream::push_octets;
use dhcp6_msg::DhcpV6Mode;
use std::alloc::AllocError;

/// Puts the text of a script, in version 2, at the end of a text. After an error, which is out of
/// memory, a part of it may be there.
#[tactic(auto, unfolding(crate::specs::Script6::script6_text))]
pub fn push_script6(text: &mut String, script: &Script6) -> Result<(), AllocError>
    ensures { OnOk result (string_bytes text.new
        ≡ string_bytes text.old ++ script6_text Later script.now) }
{
    push_first_lines(text, script)?;
    push_codes(text, &script.codes)?;
    push_held_lease(text, &script.lease)?;
    push_life(text, &script.words, script.start, &script.events)
}

// Puts the lines up to that of the identifier at the end of a text.
fn push_first_lines(text: &mut String, script: &Script6) -> Result<(), AllocError>
    ensures { OnOk result (string_bytes text.new
        ≡ string_bytes text.old ++ first_lines Later script.now) }
{
    text.push_str("dhcp6 2\n")?;
    push_iface(text, script)?;
    push_hex_line(text, "duid ", script.duid.as_slice())
}

// Puts the line `iface` at the end of a text: the index of the interface, the two addresses, what
// the client asks for, and the time limit in seconds.
fn push_iface(text: &mut String, script: &Script6) -> Result<(), AllocError>
    ensures { OnOk result (string_bytes text.new
        ≡ string_bytes text.old ++ line (codes "iface " ++ iface_text script.now)) }
{
    let index = script.iface_index;
    let timeout_sec = script.timeout_sec;
    write!(text, "iface {index} ")?;
    push_addresses(text, script)?;
    push_mode(text, script.mode)?;
    write!(text, " {timeout_sec}\n")
}

/// Puts the IPv6 address and the MAC address of a client at the end of a text, each with a space
/// after it. After an error, which is out of memory, a part of them may be there.
pub fn push_addresses(text: &mut String, script: &Script6) -> Result<(), AllocError>
    ensures { OnOk result (string_bytes text.new ≡ string_bytes text.old
        ++ (address6_text script.now.src_ip ++ 32 ∷ (mac_text script.now.mac ++ 32 ∷ []))) }
{
    push_octets(text, &script.src_ip.octets())?;
    text.push(' ')?;
    push_mac(text, &script.mac)?;
    text.push(' ')
}

// Puts a MAC address, or `-` for none, at the end of a text.
fn push_mac(text: &mut String, mac: &Option<[u8; 6]>) -> Result<(), AllocError>
    ensures { OnOk result (string_bytes text.new
        ≡ string_bytes text.old ++ mac_text mac.now) }
{
    match mac {
        None => text.push('-'),
        Some(mac) => push_octets(text, mac),
    }
}

// Puts what a client asks for at the end of a text: `na`, `ta`, or `pd` and a prefix length in
// bits.
fn push_mode(text: &mut String, mode: DhcpV6Mode) -> Result<(), AllocError>
    ensures { OnOk result (string_bytes text.new
        ≡ string_bytes text.old ++ mode_text mode) }
{
    match mode {
        DhcpV6Mode::NonTemporaryAddresses => text.push_str("na"),
        DhcpV6Mode::TemporaryAddresses => text.push_str("ta"),
        DhcpV6Mode::PrefixDelegation(len) => write!(text, "pd {len}"),
    }
}
