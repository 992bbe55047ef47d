//! The printer of the fields of a lease of an IPv6 script.

ghost use Rattle.std.specs.Prelude.{◌≡◌, ◌++◌, ◌∷◌, [], OnOk, string_bytes, unwrap_or};
ghost use Rattle.std.specs.Fmt.{decimal};
ghost use Rattle.dhcp_stream.specs.HexText.{hex_text};
ghost use Rattle.dhcp6_msg.specs.declared.mode.DhcpV6IaType.TheVariants.{NonTemporaryAddresses};
ghost use Rattle.dhcp_script.specs.Lease6.{fields_of, lease_text};

use crate::Lease6;
use crate::field::{FieldText, push_three_more};
use crate::hex_text::push_hex;
use dhcp6_msg::DhcpV6Lease;
use std::alloc::{AllocError, Global};

/// Puts the fields of a script's lease at the end of a text, with single spaces between them. After
/// an error, which is out of memory, a part of them may be there.
pub fn push_fields(text: &mut String, lease: &Lease6) -> Result<(), AllocError>
    ensures { OnOk result (string_bytes text.new
        ≡ string_bytes text.old ++ lease_text lease.now) }
{
    push_three_more(text, &lease.ia_type, &lease.iaid, &lease.address)?;
    push_server_more(text, lease)?;
    push_three_more(
        text,
        &lease.t1_sec,
        &lease.t2_sec,
        &lease.preferred_time_sec,
    )?;
    push_client_more(text, lease)?;
    lease.srv_ip.push_to(text)
}

// Puts the prefix length of a lease in bits and the identifier of its server, in hex, at the end of
// a text, each with a space after it.
fn push_server_more(text: &mut String, lease: &Lease6) -> Result<(), AllocError>
    ensures { OnOk result (string_bytes text.new ≡ string_bytes text.old
        ++ (decimal lease.now.prefix_len ++ 32 ∷ (hex_text lease.now.srv_duid ++ 32 ∷ []))) }
{
    lease.prefix_len.push_to(text)?;
    text.push(' ')?;
    push_hex(text, lease.srv_duid.as_slice())?;
    text.push(' ')
}

// Puts the end of a lease in seconds, its transaction id and the identifier of its client, in hex,
// at the end of a text, each with a space after it.
fn push_client_more(text: &mut String, lease: &Lease6) -> Result<(), AllocError>
    ensures { OnOk result (string_bytes text.new ≡ string_bytes text.old
        ++ (decimal lease.now.valid_time_sec ++ 32 ∷ (decimal lease.now.xid
        ++ 32 ∷ (hex_text lease.now.cli_duid ++ 32 ∷ [])))) }
{
    lease.valid_time_sec.push_to(text)?;
    text.push(' ')?;
    lease.xid.push_to(text)?;
    text.push(' ')?;
    push_hex(text, lease.cli_duid.as_slice())?;
    text.push(' ')
}

/// Puts the same fields of a client's lease at the end of a text; one without an `ia_type` is
/// printed as one of an IA_NA. Out of memory is the only error.
pub fn push_lease(alloc: Global, text: &mut String, lease: &DhcpV6Lease) -> Result<(), AllocError>
    ensures { OnOk result (string_bytes text.new ≡ string_bytes text.old
        ++ lease_text (fields_of (unwrap_or lease.now.ia_type NonTemporaryAddresses) lease.now)) }
{
    match Lease6::of_lease(alloc, lease) {
        Ok(fields) => push_fields(text, &fields),
        Err(_) => Err(AllocError),
    }
}
