//! Reading a lease.

ghost use Rattle.std.specs.Prelude.{◌≡◌, ◌⊎◌, ◌+◌, ◌*◌, ◌%◌, ◌^◌, Err, IfErr, IfOk, IfSome, IsSomeAnd, IsTrue, None, Ok, OnOk, Some};
ghost use Rattle.dhcp_wire.specs.Error.{no_memory};
ghost use Rattle.dhcp4_msg.specs.Message.{read_message};
ghost use Rattle.dhcp4_msg.specs.Options.{message_type};
ghost use Rattle.dhcp4_lease.specs.Lease.{HasFieldsOf, Lease, ReadsLease, are_times_in_order};

use dhcp_clock::Words;
use dhcp_wire::{DhcpError, ErrorKind};
use dhcp4_lease::DhcpV4Lease;
use dhcp4_msg::{DhcpV4Message, DhcpV4MessageType};
use std::alloc::Global;
use std::net::Ipv4Addr;

/// The lease that an Ack grants by the words that are drawn; none only if the payload is a message
/// of another type, and refused only if it is no message, or an Ack that by those words grants no
/// lease. Else out of memory is the only error.
pub fn lease_of_ack<W: Words>(
    alloc: Global,
    payload: &[u8],
    words: &mut W,
) -> Result<Option<DhcpV4Lease>, DhcpError>
    ensures fields { IfOk result (λ found. IfSome found (λ lease.
        IsSomeAnd (read_message payload.now) (λ message. HasFieldsOf message lease))) }
    ensures acknowledged { IfOk result (λ found. IfSome found (λ lease.
        IsSomeAnd (read_message payload.now) (λ message.
        message_type message.options ≡ Some DhcpV4MessageType.Ack))) }
    ensures granted { IfOk result (λ found. IfSome found (λ lease.
        IsSomeAnd (read_message payload.now) (λ message.
        ReadsLease (W.left words.old) (Ok lease) (W.left words.new) message))) }
    ensures other { result ≡ Ok None → IsSomeAnd (read_message payload.now) (λ message.
        message_type message.options ≡ Some DhcpV4MessageType.Ack → ⊥) }
    ensures undrawn { result ≡ Ok None → words.new ≡ words.old }
    ensures in_order { IfOk result (λ found. IfSome found (λ lease.
        IsTrue (are_times_in_order lease))) }
    ensures error { IfErr result (λ e.
        (e ≡ no_memory) ⊎ (e.kind ≡ ErrorKind.InvalidDhcpMessage)) }
    ensures refused { IfErr result (λ e. e.kind ≡ ErrorKind.InvalidDhcpMessage →
        IfSome (read_message payload.now) (λ message.
        (message_type message.options ≡ Some DhcpV4MessageType.Ack)
        × ReadsLease (W.left words.old) (Err e) (W.left words.new) message)) }
{
    let message = DhcpV4Message::parse(alloc, payload)?;
    if message.message_type() != Some(DhcpV4MessageType::Ack) {
        return Ok(None);
    }
    Ok(Some(DhcpV4Lease::from_message(alloc, message, words)?))
}

/// A source of words that no contract knows: its `left` is none. A real client takes them from the
/// system's source of randomness.
#[derive(Debug, Drop)]
pub struct Counter {
    /// The next word.
    pub next: u32,
}

impl Words for Counter {
    ghost left = { λ _. None };

    fn next_word(&mut self) -> u32
        ensures { (result ≡ self.new.next)
            × (self.new.next ≡ (self.old.next * 1664525 + 1013904223) % 2 ^ 32) }
    {
        self.next = self
            .next
            .wrapping_mul(1_664_525)
            .wrapping_add(1_013_904_223);
        self.next
    }
}

/// The address that a message leases, by random words that no contract knows: if it is returned,
/// there are words by which the message grants a lease, and if it is refused, words by which it
/// grants none. Else out of memory is the only error.
pub fn address_of_lease(
    alloc: Global,
    message: &DhcpV4Message,
    words: &mut Counter,
) -> Result<Ipv4Addr, DhcpError>
    ensures address { IfOk result (λ address. address ≡ message.now.yiaddr) }
    ensures granted { OnOk result ((lease : Lease) × ReadsLease None (Ok lease) None message.now) }
    ensures error { IfErr result (λ e.
        (e ≡ no_memory) ⊎ (e.kind ≡ ErrorKind.InvalidDhcpMessage)) }
    ensures refused { IfErr result (λ e. ReadsLease None (Err e) None message.now) }
{
    let lease = DhcpV4Lease::new_from_msg(alloc, message, words)?;
    Ok(lease.yiaddr)
}
