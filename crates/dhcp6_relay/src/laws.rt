//! Laws of the definitions: an answer finds its way back through the relay agents that its question
//! came through. A call does nothing.

ghost use Rattle.std.specs.Prelude.{◌≡◌, ◌≢◌, ℕ, List, Err, Ok, false, option_copied};
ghost use Rattle.dhcp6_relay.specs.Hop.{Hop};
ghost use Rattle.dhcp6_relay.specs.Layer.{is_forward};
ghost use Rattle.dhcp6_relay.specs.Reply.{reply_of};
ghost use Rattle.dhcp6_relay.specs.RoundTrip.{BringsBack, FindsItsLayer, IsWay, relayed_message};
ghost use Rattle.dhcp6_relay.specs.Wrap.{wrapped_message};
ghost use Rattle.dhcp6_relay.specs.declared.error.RelayError.TheVariants.{TooLong};

use std::net::Ipv6Addr;

/// A message that is no Relay-forward, relayed by one to nine relay agents in turn, becomes a
/// message unless that would be too long. Then its answer becomes a Relay-reply, unless that would
/// be too long; and each relay agent, from the last to the first, finds in that what it wrote
/// itself, and inside what it sends on, which at the end is the answer.
pub fn answers_come_back()
    ensures relayed { (hops : List Hop) (message : List ℕ) → IsWay hops
        → is_forward message ≡ false
        → relayed_message hops message ≢ Err TooLong
        → (bytes : List ℕ) × (relayed_message hops message ≡ Ok bytes) }
    ensures brought_back { (hops : List Hop) (message answer bytes : List ℕ) → IsWay hops
        → is_forward message ≡ false
        → relayed_message hops message ≡ Ok bytes
        → reply_of bytes answer ≢ Err TooLong
        → (reply : List ℕ) × ((reply_of bytes answer ≡ Ok reply)
        × BringsBack hops reply answer) }
{}

/// One step of the way back, by what the calls return: where `wrap_forward` made `forward` of a
/// message of these bytes, and `reply_along` made `reply` of that and an answer, `parse_relay`
/// finds in the reply what was passed to `wrap_forward`, and inside the answer to the message: the
/// answer itself, or what `reply_along` makes of the message if it is a Relay-forward.
pub fn a_reply_is_unwrapped(
    bytes: &[u8],
    link: Ipv6Addr,
    peer: Ipv6Addr,
    interface: Option<&[u8]>,
    forward: &[u8],
    answer: &[u8],
    reply: &[u8],
)
    ensures { let hop : Hop = record {
      link = link;
      peer = peer;
      interface = option_copied interface.entry;
    } in
        wrapped_message bytes.now hop ≡ Ok forward.now
        → reply_of forward.now answer.now ≡ Ok reply.now
        → FindsItsLayer bytes.now hop answer.now reply.now }
{}
