//! A message on its way through relay agents to a server, and its answer on the way back.

ghost use Rattle.std.specs.Prelude.{◌≡◌, IfErr, IfOk, Ok, false, option_copied, true};
ghost use Rattle.dhcp6_relay.specs.Layer.{is_forward};
ghost use Rattle.dhcp6_relay.specs.Outcome.{Gives};
ghost use Rattle.dhcp6_relay.specs.Relay.{parsed_relay};
ghost use Rattle.dhcp6_relay.specs.Reply.{reply_of};
ghost use Rattle.dhcp6_relay.specs.RoundTrip.{answer_to};
ghost use Rattle.dhcp6_relay.specs.Wrap.{wrapped_message};
ghost use Rattle.uses.specs.Relay.{answer_through, hop_of};

use dhcp_wire::Bytes;
use dhcp6_relay::{Relay, RelayError, laws, parse_relay, reply_along, wrap_forward};
use std::alloc::Global;
use std::net::Ipv6Addr;

/// A relay agent, by what it writes of a message that it receives.
#[derive(Debug, Drop)]
pub struct RelayAgent<'a> {
    /// An address of the link that the message comes from.
    pub link: Ipv6Addr,
    /// The address of who sends it.
    pub peer: Ipv6Addr,
    /// The interface that it comes in on, if that has an id.
    pub interface: Option<&'a [u8]>,
}

impl<'a> RelayAgent<'a> {
    /// The Relay-forward of a message. It is refused as `wrap_forward` refuses it.
    pub fn relay(&self, alloc: Global, message: &[u8]) -> Result<Bytes, RelayError>
        ensures made { Gives (λ forward. forward) result
            (wrapped_message message.now (hop_of self.now)) }
        ensures forward { IfOk result (λ forward. is_forward forward ≡ true) }
    {
        wrap_forward(alloc, message, self.link, self.peer, self.interface)
    }

    /// What is found in the reply to a message that was relayed here: the peer that it goes back
    /// to, the interface that it goes out on, and an answer to the message. Out of memory is the
    /// only error.
    pub fn unwrap_reply(
        &self,
        alloc: Global,
        message: &[u8],
        forward: &[u8],
        answer: &[u8],
        reply: &[u8],
    ) -> Result<Relay, RelayError>
        requires relayed { wrapped_message message.now (hop_of self.now) ≡ Ok forward.now }
        requires replied { reply_of forward.now answer.now ≡ Ok reply.now }
        ensures read { IfOk result (λ relay. parsed_relay reply.now ≡ Ok relay) }
        ensures peer { IfOk result (λ relay. relay.peer ≡ self.now.peer) }
        ensures interface { IfOk result (λ relay.
            relay.interface ≡ option_copied self.now.interface) }
        ensures inner { IfOk result (λ relay.
            answer_to message.now answer.now ≡ Ok relay.inner) }
        ensures error { IfErr result (λ e. e ≡ RelayError.OutOfMemory) }
    {
        laws::a_reply_is_unwrapped(
            message,
            self.link,
            self.peer,
            self.interface,
            forward,
            answer,
            reply,
        );
        parse_relay(alloc, reply)
    }
}

/// What comes back to a client for its message, which two relay agents relay to a server, if the
/// server answers so: each relay agent unwraps what it receives and sends on what is inside. It is
/// the answer of the server, or the first refusal on the way: that of `wrap_forward` at either
/// relay agent, or of `reply_along`. Else out of memory is the only error.
pub fn answer_through_two(
    alloc: Global,
    message: &[u8],
    first: &RelayAgent<'_>,
    second: &RelayAgent<'_>,
    answer: &[u8],
) -> Result<Bytes, RelayError>
    requires { is_forward message.now ≡ false }
    ensures { Gives (λ bytes. bytes) result
        (answer_through (hop_of first.now) (hop_of second.now) message.now answer.now) }
{
    let once = first.relay(alloc, message)?;
    let twice = second.relay(alloc, once.as_slice())?;
    let reply = reply_along(alloc, twice.as_slice(), answer)?;
    let outer = second.unwrap_reply(
        alloc,
        once.as_slice(),
        twice.as_slice(),
        answer,
        reply.as_slice(),
    )?;
    let inner = first.unwrap_reply(
        alloc,
        message,
        once.as_slice(),
        answer,
        outer.inner.as_slice(),
    )?;
    Ok(inner.inner)
}
