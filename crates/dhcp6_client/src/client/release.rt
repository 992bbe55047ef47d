//! The release of a lease, RFC 8415 section 18.2.7.

ghost use Rattle.std.specs.Prelude.{◌≡◌, Some, None, OnOk};

use super::DhcpV6Client;
use crate::message::release_message;
use dhcp_clock::DhcpLink;
use dhcp_history::{release_at, release_held_at};
use dhcp_wire::{DhcpError, ErrorKind, FixedText};
use dhcp6_msg::{DhcpV6Lease, is_duid};

impl DhcpV6Client {
    ghost use Rattle.dhcp_history.specs.Calls.{IsHeldRelease};
    ghost use Rattle.dhcp_history.specs.Errors.{release_answer};
    ghost use Rattle.dhcp_history.specs.Release.{held_message};
    ghost use Rattle.dhcp_history.specs.Turns.{TracesRelease};
    ghost use Rattle.dhcp6_client.specs.Release.{IsReleaseOf, release_by};
    ghost use Rattle.dhcp6_client.specs.Rules.{held_lease, protocol};

    /// Releases a lease at a moment, in milliseconds, and cleans up. The message is sent once, and
    /// no answer is awaited; by RFC 8415 section 18.2.7 it is sent again until a Reply comes, four
    /// times in all at most. Ok if and only if the link took the message. `InvalidArgument` if and
    /// only if the server's identifier of the lease is not 2 to 65,535 bytes; nothing is sent then,
    /// and the client is unchanged. `IoError` if and only if the link refused the message; the
    /// client is then unchanged but for its last moment.
    pub fn release<L: DhcpLink>(
        &mut self,
        lease: &DhcpV6Lease,
        now: u64,
        link: &mut L,
    ) -> Result<(), DhcpError>
        ensures released { IsReleaseOf lease.now now result self.old self.new
            (L.shown link.old) (L.shown link.new) (L.faults link.old) (L.faults link.new) }
        ensures traced { TracesRelease L.moves (Some (release_by self.old lease.now))
            (release_answer result) link.old link.new }
        ensures dropped { OnOk result (held_lease self.new.client.state ≡ None) }
    {
        if !is_duid(&lease.srv_duid) {
            return Err(DhcpError::new_fixed(ErrorKind::InvalidArgument, FixedText::Lease));
        }
        let xid = self.client.standing.exchange.xid;
        let message = release_message(self.rules.alloc, xid, &self.rules.config, lease)?;
        release_at(&self.rules, &mut self.client, message, now, link)
    }

    /// Releases the lease that is held, at a moment in milliseconds, and cleans up; returns false
    /// if no lease is held, and then sends nothing. `IoError` if and only if the link refused the
    /// message; the client is then unchanged but for its last moment.
    pub fn release_held<L: DhcpLink>(&mut self, now: u64, link: &mut L) -> Result<bool, DhcpError>
        ensures released { IsHeldRelease protocol now result self.old self.new
            (L.shown link.old) (L.shown link.new) (L.faults link.old) (L.faults link.new) }
        ensures traced { TracesRelease L.moves (held_message (protocol self.old.config)
            self.old.client.state self.old.client.standing.exchange)
            (release_answer result) link.old link.new }
        ensures dropped { OnOk result (held_lease self.new.client.state ≡ None) }
    {
        release_held_at(&self.rules, &mut self.client, now, link)
    }
}
