//! The laws of Acks, bindings and replies. A call does nothing.

ghost use Rattle.std.specs.Prelude.{◌≡◌, ◌≤◌, ◌+◌, ◌⊎◌, ℕ, IfSome, List, Option, Some, length};
ghost use Rattle.dhcp4_msg.specs.Laws.{read_back};
ghost use Rattle.dhcp4_msg.specs.Message.{read_message, written_message};
ghost use Rattle.dhcp4_server.specs.Ack.{Ack, AreLawful, IsAmong};
ghost use Rattle.dhcp4_server.specs.Binding.{Stands};
ghost use Rattle.dhcp4_server.specs.Config.{IsTyped};
ghost use Rattle.dhcp4_server.specs.Decision.{BindsBy, Pool, acks_after, decide, decide_by};
ghost use Rattle.dhcp4_server.specs.Reply.{IsFramed, reply_by, reply_frame};
ghost use Rattle.dhcp4_server.specs.Request.{CanBeAnswered};
ghost use Rattle.dhcp4_server.specs.declared.binding.Binding.{Binding};
ghost use Rattle.dhcp4_server.specs.declared.decision.Query.{Query};

use crate::{Decision, ServerConfig};
use dhcp_wire::laws::{fits_four_bytes, has_six_bytes};
use dhcp4_msg::DhcpV4Message;

/// Bindings that stand for Acks decide as those do. Once they are changed by what they decide they
/// stand for the Acks then, and if nothing happens they stand for the same Acks later.
pub fn bindings_stand_for_acks()
    ensures decided { (kept latest now xid : ℕ) (bindings : ℕ → Option Binding)
        (acks : List Ack) (pool : Pool) (query : Query) →
        Stands kept latest bindings acks → latest ≤ now →
        decide_by pool bindings xid now query ≡ decide kept pool acks xid now query }
    ensures answered { (kept latest now xid : ℕ) (bindings after : ℕ → Option Binding)
        (acks : List Ack) (pool : Pool) (query : Query) →
        Stands kept latest bindings acks → latest ≤ now →
        BindsBy xid (now + kept) (decide_by pool bindings xid now query) bindings after →
        Stands kept now after (acks_after acks xid now (decide kept pool acks xid now query)) }
    ensures later { (kept latest now : ℕ) (bindings : ℕ → Option Binding) (acks : List Ack) →
        Stands kept latest bindings acks → latest ≤ now → Stands kept now bindings acks }
{}

/// Of two Acks of one address to different clients, each of which was free for its client when it
/// was sent, one is over when the other is sent.
pub fn acks_are_apart()
    ensures { (kept latest : ℕ) (acks : List Ack) → AreLawful kept latest acks →
        (one other : Ack) → IsAmong one acks → IsAmong other acks →
        one.address ≡ other.address → (one.xid ≡ other.xid → ⊥) →
        (one.moment + kept ≤ other.moment) ⊎ (other.moment + kept ≤ one.moment) }
{}

/// What a server replies to a message, by what it decided, reads back as it is written, and has at
/// most 300 bytes. The frame that carries it reads back too.
pub fn replies_read_back(config: &ServerConfig, message: &DhcpV4Message, decision: Decision)
    ensures read_back { IfSome (reply_by config.now message.now decision)
        (λ reply. read_message (written_message reply) ≡ Some (read_back reply)) }
    ensures short { IfSome (reply_by config.now message.now decision)
        (λ reply. length (written_message reply) ≤ 300) }
    ensures framed { IfSome (reply_by config.now message.now decision)
        (λ reply. IsFramed (reply_frame config.now (written_message reply))) }
{
    a_configuration_is_typed(config);
    can_be_answered(message);
}

/// What the types of a configuration keep.
pub fn a_configuration_is_typed(config: &ServerConfig)
    ensures { IsTyped config.now }
{
    let ip = config.ip;
    let mask = config.mask;
    let _ip = ip.octets();
    let _mask = mask.octets();
    let _lease = config.lease_sec;
    has_six_bytes(config.mac);
}

// What every message keeps.
fn can_be_answered(message: &DhcpV4Message)
    ensures { CanBeAnswered message.now }
{
    fits_four_bytes(message.xid);
    has_sixteen_bytes(message.chaddr);
}

// A hardware address has sixteen bytes.
fn has_sixteen_bytes(chaddr: [u8; 16])
    ensures { length chaddr ≡ 16 }
{
    let [_, _, _, _, _, _, _, _, _, _, _, _, _, _, _, _] = chaddr;
}
