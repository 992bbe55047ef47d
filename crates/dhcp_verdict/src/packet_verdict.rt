//! What a packet is to a client as it stands.

ghost use Rattle.std.specs.Prelude.{◌≡◌};
ghost use Rattle.dhcp_verdict.specs.PacketVerdict.{is_answer};

use dhcp_wire::ErrorKind;

/// What a packet is to a client as it stands. A packet is tested in the order of these variants:
/// each says that none of those before it is so, but for `Answer`, where every test is passed. `T`
/// is the type of a message of the client's family.
#[derive(Clone, Copy, Debug, PartialEq, Eq)]
pub enum PacketVerdict<T> {
    /// It is the awaited answer: a poll that reads it changes the state of the client.
    Answer,
    /// No attempt is open, or a poll at this moment ends the state, or finds its time limit over.
    NoOpenAttempt,
    /// It is a frame where a payload is awaited, or a payload where a frame is.
    OtherCarrier,
    /// It is no Ethernet frame of a UDP datagram over IPv4, or is one to another port than the
    /// client's.
    NoFrame,
    /// Its payload reads as no message.
    NoMessage,
    /// Its message has another transaction id than the attempt.
    OtherTransactionId,
    /// Its message is of a type that is not awaited: this one.
    OtherType(T),
    /// It refuses a request, as a Nack does (RFC 2131, section 3.1), but of another server than the
    /// one that was asked.
    OtherServer,
    /// Its message is of the awaited type, but grants no lease, or in IPv4 grants one only with
    /// some of the random words that T1 and T2 are drawn from; its reading gives an error of this
    /// kind.
    NoLease(ErrorKind),
}

impl<T: Copy> PacketVerdict<T> {
    /// Whether it is the awaited answer.
    pub fn is_answer(self) -> bool
        ensures { result ≡ is_answer self }
    {
        matches!(self, PacketVerdict::Answer)
    }
}
