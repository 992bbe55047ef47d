//! The release of a lease, RFC 2131 section 4.4.6.

ghost use Rattle.std.specs.Prelude.{◌≡◌, Some, None, OnOk};

use super::DhcpV4Client;
use crate::message::release_message;
use dhcp_clock::DhcpLink;
use dhcp_history::{release_at, release_held_at};
use dhcp_wire::DhcpError;
use dhcp4_lease::DhcpV4Lease;

impl DhcpV4Client {
    ghost use Rattle.dhcp_history.specs.Calls.{IsHeldRelease, IsRelease};
    ghost use Rattle.dhcp_history.specs.Errors.{release_answer};
    ghost use Rattle.dhcp_history.specs.Release.{held_message};
    ghost use Rattle.dhcp_history.specs.Turns.{TracesRelease};
    ghost use Rattle.dhcp4_client.specs.Release.{release_by};
    ghost use Rattle.dhcp4_client.specs.Rules.{held_lease, protocol};

    /// Releases a lease at a moment, in milliseconds, and cleans up. As a proxy, or if no lease is
    /// held, the message goes in a frame from `yiaddr` to `srv_mac` of this lease; else as a
    /// payload from `yiaddr` of the lease that is held. By the forms of `Rfc2131` it goes to the
    /// server of this lease, `server_of`; by those of `Mozim` to `siaddr`, of this lease in a frame
    /// and of the one that is held in a payload. Ok if and only if the link took it. `IoError` if
    /// and only if the link refused it; the client is then unchanged but for its last moment.
    pub fn release<L: DhcpLink>(
        &mut self,
        lease: &DhcpV4Lease,
        now: u64,
        link: &mut L,
    ) -> Result<(), DhcpError>
        ensures released { IsRelease protocol (release_by self.old lease.now) now result
            self.old self.new
            (L.shown link.old) (L.shown link.new) (L.faults link.old) (L.faults link.new) }
        ensures traced { TracesRelease L.moves (Some (release_by self.old lease.now))
            (release_answer result) link.old link.new }
        ensures dropped { OnOk result (held_lease self.new.client.state ≡ None) }
    {
        let xid = self.client.standing.exchange.xid;
        let config = &self.rules.config;
        let message = release_message(self.rules.alloc, xid, config, self.lease(), lease)?;
        release_at(&self.rules, &mut self.client, message, now, link)
    }

    /// Releases the lease that is held, at a moment in milliseconds, and cleans up; returns false
    /// if no lease is held, and then sends nothing. `IoError` if and only if the link refused the
    /// message; the client is then unchanged but for its last moment.
    pub fn release_held<L: DhcpLink>(&mut self, now: u64, link: &mut L) -> Result<bool, DhcpError>
        ensures released { IsHeldRelease protocol now result self.old self.new
            (L.shown link.old) (L.shown link.new) (L.faults link.old) (L.faults link.new) }
        ensures traced { TracesRelease L.moves (held_message (protocol self.old.config)
            self.old.client.state self.old.client.standing.exchange)
            (release_answer result) link.old link.new }
        ensures dropped { OnOk result (held_lease self.new.client.state ≡ None) }
    {
        release_held_at(&self.rules, &mut self.client, now, link)
    }
}
