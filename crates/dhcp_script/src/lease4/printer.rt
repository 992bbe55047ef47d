//! The printer of the fields of a lease of an IPv4 script.

ghost use Rattle.std.specs.Prelude.{◌≡◌, ◌++◌, OnOk, string_bytes};
ghost use Rattle.dhcp_script.specs.Lease4.{fields_of, lease_text};

use crate::Lease4;
use crate::field::{push_three, push_three_more};
use dhcp4_lease::DhcpV4Lease;
use std::alloc::AllocError;

/// Puts the fields of a script's lease at the end of a text, with single spaces between them. After
/// an error, which is out of memory, a part of them may be there.
#[tactic(auto, unfolding(crate::specs::Lease4::lease_text))]
pub fn push_fields(text: &mut String, lease: &Lease4) -> Result<(), AllocError>
    ensures { OnOk result (string_bytes text.new
        ≡ string_bytes text.old ++ lease_text lease.now) }
{
    push_three_more(text, &lease.yiaddr, &lease.siaddr, &lease.srv_id)?;
    push_three_more(text, &lease.t1_sec, &lease.t2_sec, &lease.lease_time_sec)?;
    push_three_more(text, &lease.subnet_mask, &lease.broadcast_addr, &lease.mtu)?;
    push_three_more(text, &lease.dns_srvs, &lease.gateways, &lease.ntp_srvs)?;
    push_three(
        text,
        &lease.host_name,
        &lease.domain_name,
        &lease.classless_routes,
    )
}

/// Puts the same fields of a client's lease at the end of a text. After an error, which is out of
/// memory, a part of them may be there.
#[tactic(auto, unfolding(crate::specs::Lease4::lease_text))]
pub fn push_lease(text: &mut String, lease: &DhcpV4Lease) -> Result<(), AllocError>
    ensures { OnOk result (string_bytes text.new
        ≡ string_bytes text.old ++ lease_text (fields_of lease.now)) }
{
    push_three_more(text, &lease.yiaddr, &lease.siaddr, &lease.srv_id)?;
    push_three_more(text, &lease.t1_sec, &lease.t2_sec, &lease.lease_time_sec)?;
    push_three_more(text, &lease.subnet_mask, &lease.broadcast_addr, &lease.mtu)?;
    push_three_more(text, &lease.dns_srvs, &lease.gateways, &lease.ntp_srvs)?;
    push_three(
        text,
        &lease.host_name,
        &lease.domain_name,
        &lease.classless_routes,
    )
}
