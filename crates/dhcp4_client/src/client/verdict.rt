//! What a packet is to a client, RFC 2131 sections 3.1 and 4.4.

ghost use Rattle.std.specs.Prelude.{◌≡◌, true, IfErr, IfOk, OnErr};
ghost use Rattle.dhcp_wire.specs.Error.{no_memory};

use super::DhcpV4Client;
use crate::verdict::packet_verdict;
use dhcp_clock::Packet;
use dhcp_verdict::PacketVerdict;
use dhcp_wire::DhcpError;
use dhcp4_msg::DhcpV4MessageType;

impl DhcpV4Client {
    ghost use Rattle.dhcp_verdict.specs.OpenAttempt.{IsAnswerTest, is_open};
    ghost use Rattle.dhcp_verdict.specs.PacketVerdict.{is_answer};
    ghost use Rattle.dhcp4_client.specs.Rules.{may_answer, protocol};
    ghost use Rattle.dhcp4_client.specs.Verdict.{packet_verdict};

    /// What a packet is to the client as it stands at a moment, in milliseconds: the answer that it
    /// awaits, or why it is none. Changes nothing, and draws no word. `Answer` if and only if an
    /// attempt is open and the packet answers it whatever random words are the next ones: if option
    /// 58 or 59 is absent, T1 or T2 depends on a word, and `NoLease` says that they are out of
    /// order for some. The type of `OtherType` is that of option 53, if the message has it (RFC
    /// 2132, section 9.6). Out of memory is the only error, and comes only of a packet that may
    /// answer.
    pub fn verdict(
        &self,
        now: u64,
        packet: &Packet,
    ) -> Result<PacketVerdict<Option<DhcpV4MessageType>>, DhcpError>
        ensures found { IfOk result (λ found.
            found ≡ packet_verdict self.now.config self.now.client now packet.now) }
        ensures tested { IfOk result (λ found. IsAnswerTest (protocol self.now.config)
            now packet.now (is_answer found) self.now.client) }
        ensures error { IfErr result (λ error. error ≡ no_memory) }
        ensures listening { OnErr result (is_open (protocol self.now.config) now self.now.client
            ≡ true) }
        ensures needed { OnErr result (may_answer self.now.config.message_forms
            self.now.client.state self.now.client.standing.exchange packet.now ≡ true) }
    {
        packet_verdict(&self.rules, &self.client, now, packet)
    }
}
