//! What a packet is to a client, RFC 8415 sections 16.3, 16.10 and 18.2.10.

ghost use Rattle.std.specs.Prelude.{◌≡◌, true, IfErr, IfOk, OnErr};
ghost use Rattle.dhcp_wire.specs.Error.{no_memory};

use super::DhcpV6Client;
use crate::verdict::packet_verdict;
use dhcp_clock::Packet;
use dhcp_verdict::PacketVerdict;
use dhcp_wire::DhcpError;
use dhcp6_msg::DhcpV6MessageType;

impl DhcpV6Client {
    ghost use Rattle.dhcp_verdict.specs.OpenAttempt.{IsAnswerTest, is_open};
    ghost use Rattle.dhcp_verdict.specs.PacketVerdict.{is_answer};
    ghost use Rattle.dhcp6_client.specs.Rules.{may_answer, protocol};
    ghost use Rattle.dhcp6_client.specs.Verdict.{packet_verdict};

    /// What a packet is to the client as it stands at a moment, in milliseconds: the answer that it
    /// awaits, or why it is none. Changes nothing. `Answer` if and only if an attempt is open and
    /// the packet answers it. `NoLease` has the kind of the error that `DhcpV6Lease::new_from_msg`
    /// gives: `NoLease` if the server has refused, `InvalidDhcpMessage` if the message has no lease
    /// that can be held. It is never `NoFrame` or `OtherServer`. Out of memory is the only error,
    /// and comes only of a packet that may answer.
    pub fn verdict(
        &self,
        now: u64,
        packet: &Packet,
    ) -> Result<PacketVerdict<DhcpV6MessageType>, DhcpError>
        ensures found { IfOk result (λ found.
            found ≡ packet_verdict self.now.config self.now.client now packet.now) }
        ensures tested { IfOk result (λ found. IsAnswerTest (protocol self.now.config)
            now packet.now (is_answer found) self.now.client) }
        ensures error { IfErr result (λ error. error ≡ no_memory) }
        ensures listening { OnErr result (is_open (protocol self.now.config) now self.now.client
            ≡ true) }
        ensures needed { OnErr result (may_answer self.now.client.state
            self.now.client.standing.exchange packet.now ≡ true) }
    {
        packet_verdict(&self.rules, &self.client, now, packet)
    }
}
