//! Laws of messages and of leases. A call does nothing.

ghost use Rattle.std.specs.Prelude.{◌≡◌, ◌<◌, ◌^◌, ◌%◌, ℕ, List, Ok, Some, IsTrue, length};
ghost use Rattle.std.specs.Ordering.{nat_cmp};
ghost use Rattle.dhcp_wire.specs.Order.{IsRisingBy};
ghost use Rattle.dhcp6_msg.specs.contracts.message_type.DhcpV6MessageTypeOrd.TheImpl as types;
ghost use Rattle.dhcp6_msg.specs.contracts.mode.DhcpV6IaTypeOrd.TheImpl as associations;
ghost use Rattle.dhcp6_msg.specs.contracts.mode.DhcpV6ModeOrd.TheImpl as modes;
ghost use Rattle.dhcp6_msg.specs.declared.message.DhcpV6Message.{DhcpV6Message};
ghost use Rattle.dhcp6_msg.specs.declared.mode.DhcpV6Mode.TheVariants.{PrefixDelegation};
ghost use Rattle.dhcp6_msg.specs.Config.{Config};
ghost use Rattle.dhcp6_msg.specs.Laws.{AreSendable, ReadsBackAs};
ghost use Rattle.dhcp6_msg.specs.Lease.{Lease, is_duid, is_within_limits, read_lease};
ghost use Rattle.dhcp6_msg.specs.Message.{
  id_bytes,
  id_number,
  ReadsBack,
  read_message,
};
ghost use Rattle.dhcp6_msg.specs.MessageTable as table;
ghost use Rattle.dhcp6_msg.specs.MessageTable.{RowParts, table_message};
ghost use Rattle.dhcp6_msg.specs.MessageType.{all_types};
ghost use Rattle.dhcp6_msg.specs.Mode.{all_associations, modes_with};

use crate::DhcpV6Message;
use dhcp6_opt::laws::option_list_reads_back;

/// Message types are ordered by number; types of associations and modes as they are declared, and
/// modes that ask for a prefix by its length.
pub fn variants_are_ordered_as_declared()
    ensures types { IsRisingBy types.ghosts.cmp all_types }
    ensures associations { IsRisingBy associations.ghosts.cmp all_associations }
    ensures modes { (length : ℕ) → IsRisingBy modes.ghosts.cmp (modes_with length) }
    ensures lengths { (first second : ℕ)
        → modes.ghosts.cmp (PrefixDelegation first) (PrefixDelegation second)
        ≡ nat_cmp first second }
{}

/// A message reads back as it is written: with its type, its transaction id of three bytes, and the
/// options that its options are written as. So does each message of the table.
pub fn messages_read_back()
    ensures any { (message : DhcpV6Message) → length message.xid ≡ 3 → ReadsBack message }
    ensures built { (id : ℕ) (config : Config) (row : RowParts)
        → ReadsBack (table_message id config row) }
{}

/// The messages that a client builds, with identifiers of 2 to 65,535 bytes, read back: as the
/// table of messages has them, with the codes that they request under their names, and with an
/// identifier that is kept as its bytes alone by its type.
pub fn built_message_reads_back(message: &DhcpV6Message)
    ensures solicit { (id : ℕ) (config : Config) (iaid elapsed_ms : ℕ)
        → IsTrue (is_duid config.duid)
        → ReadsBackAs message.now
        (table_message id config (table.solicit config.mode iaid elapsed_ms)) }
    ensures request { (id : ℕ) (config : Config) (offer : Lease) (elapsed_ms : ℕ)
        → AreSendable config offer
        → ReadsBackAs message.now (table_message id config (table.request offer elapsed_ms)) }
    ensures renew { (id : ℕ) (config : Config) (held : Lease) (elapsed_ms : ℕ)
        → AreSendable config held
        → ReadsBackAs message.now (table_message id config (table.renew held elapsed_ms)) }
    ensures rebind { (id : ℕ) (config : Config) (held : Lease) (elapsed_ms : ℕ)
        → IsTrue (is_duid config.duid)
        → ReadsBackAs message.now (table_message id config (table.rebind held elapsed_ms)) }
    ensures release { (id : ℕ) (config : Config) (held : Lease)
        → AreSendable config held
        → ReadsBackAs message.now (table_message id config (table.release held)) }
{
    option_list_reads_back(&message.options);
}

/// The lower 24 bits of a number read back as the transaction id that they are written as.
pub fn ids_read_back()
    ensures { (number : ℕ) → number < 2 ^ 32 → id_number (id_bytes number) ≡ number % 2 ^ 24 }
{}

/// A lease that is read from a payload is one that a client may hold: its times are in order, it
/// has an address and a type, and its server's identifier has 2 to 65,535 bytes.
pub fn leases_are_within_limits()
    ensures { (payload : List ℕ) (message : DhcpV6Message) (lease : Lease)
        → read_message payload ≡ Some message
        → read_lease message ≡ Ok lease
        → IsTrue (is_within_limits lease) }
{}
