//! What contracts of one's own say of a client: of a poll, and of the lease that it holds.

ghost use Rattle.std.specs.Prelude.{◌≡◌, ◌<◌, ◌^◌, Box};
ghost use Rattle.std.specs.declared.alloc.Global.{Global};
ghost use Rattle.dhcp_history.specs.Calls.{IsRun};
ghost use Rattle.dhcp_history.specs.Seen.{seen};
ghost use Rattle.dhcp4_client.specs.Granted.{HeardLease};
ghost use Rattle.dhcp4_client.specs.Rules.{lease_end, may_answer, protocol};
ghost use Rattle.dhcp4_client.specs.State.{plain_state};
ghost use Rattle.dhcp4_lease.specs.declared.lease.DhcpV4Lease.{DhcpV4Lease};

use dhcp_clock::{DhcpLink, Words};
use dhcp_wire::DhcpError;
use dhcp4_client::{DhcpV4Client, DhcpV4State};

/// One poll at a moment, in milliseconds, which is what `run` says of one. A lease that it reports
/// was read from the packet that the link gave last in this poll, carried as awaited and with the
/// client's transaction id.
pub fn hear<W: Words, L: DhcpLink>(
    client: &mut DhcpV4Client,
    now: u64,
    words: &mut W,
    link: &mut L,
) -> Result<Option<DhcpV4State>, DhcpError>
    requires { now < 2 ^ 60 }
    ensures ran { IsRun protocol plain_state (may_answer client.old.config.message_forms) now
        result (seen client.old (W.left words.old) (L.shown link.old) (L.faults link.old))
        (seen client.new (W.left words.new) (L.shown link.new) (L.faults link.new)) }
    ensures heard { (held : Box DhcpV4Lease Global) → result ≡ Ok (Some (DhcpV4State.Done held)) →
        HeardLease W.gives L.moves now held.value client.old words.old words.new
        link.old link.new }
{
    client.run(now, words, link)
}

/// The moment, in milliseconds, at which the lease ends that the client holds; none if it holds
/// none.
pub fn end_of_lease(client: &DhcpV4Client) -> Option<u64>
    ensures { result ≡ lease_end client.now.client.state }
{
    client.lease_end()
}
