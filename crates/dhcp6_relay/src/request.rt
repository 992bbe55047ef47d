//! What the words of the command line ask for.

ghost use Rattle.std.specs.Prelude.{◌≡◌, ◌∷◌, [], map, option_copied, string_bytes};
ghost use Rattle.dhcp6_relay.specs.Outcome.{Gives};
ghost use Rattle.dhcp6_relay.specs.Request as requests;
ghost use Rattle.dhcp6_relay.specs.Request.{GivesRequest, IsRequestIn};
ghost use Rattle.dhcp6_relay.specs.Tool.{inner_of, result_for};

use crate::{RelayError, parse_relay, reply_along, wrap_forward};
use dhcp_stream::{hex_field, ipv6_field};
use dhcp_wire::{Bytes, DhcpError};
use std::alloc::Global;
use std::net::Ipv6Addr;

/// What the program is asked for.
#[derive(Debug, Drop)]
pub enum Request {
    /// The Relay-forward of a message.
    Wrap {
        /// An address of the link that the message came from.
        link: Ipv6Addr,
        /// The address of who sent it.
        peer: Ipv6Addr,
        /// The id of the interface that it came in on; no bytes if none is given.
        interface: Bytes,
    },
    /// The Relay-reply that brings this answer back along the way of a Relay-forward.
    Reply(Bytes),
    /// The message inside a relay message.
    Unwrap,
}

impl Request {
    /// What the words ask for: `wrap`, two IPv6 addresses of 32 hex digits each and an interface id
    /// in hex, or `-` for none; `reply` and an answer in hex, or `-` for no bytes; or `unwrap`
    /// alone. None if and only if they are none of these; out of memory is the only error.
    pub fn of_words(alloc: Global, words: &[String]) -> Result<Option<Self>, DhcpError>
        ensures { GivesRequest result (map string_bytes words.now) }
    {
        match words {
            [word] => Ok(of_one(word.as_str())),
            [word, answer] => of_two(alloc, word.as_str(), answer.as_str()),
            [word, link, peer, interface] => of_four(
                alloc,
                word.as_str(),
                link.as_str(),
                peer.as_str(),
                interface.as_str(),
            ),
            _ => Ok(None),
        }
    }

    /// What it makes of a message. It is refused as `wrap_forward`, `reply_along` or `parse_relay`
    /// refuses it.
    #[tactic(auto, unfolding(crate::specs::Tool::result_for))]
    pub fn result_for(&self, alloc: Global, message: &[u8]) -> Result<Bytes, RelayError>
        ensures { Gives (λ bytes. bytes) result (result_for self.now message.now) }
    {
        match self {
            Request::Wrap {
                link,
                peer,
                interface,
            } => wrap_forward(
                alloc,
                message,
                *link,
                *peer,
                interface_of(interface.as_slice()),
            ),
            Request::Reply(answer) => reply_along(alloc, message, answer.as_slice()),
            Request::Unwrap => inner_of(alloc, message),
        }
    }
}

// The message inside a relay message.
#[tactic(auto, unfolding(crate::specs::Tool::inner_of))]
fn inner_of(alloc: Global, message: &[u8]) -> Result<Bytes, RelayError>
    ensures { Gives (λ bytes. bytes) result (inner_of message.now) }
{
    let relay = parse_relay(alloc, message)?;
    Ok(relay.inner)
}

// The interface id that these bytes give: none if there are no bytes.
fn interface_of(bytes: &[u8]) -> Option<&[u8]>
    ensures { option_copied result ≡ requests.interface_of bytes.now }
{
    if bytes.is_empty() { None } else { Some(bytes) }
}

// What a single word asks for.
#[tactic(auto, using(crate::proofs::RequestLemmas::not_one))]
fn of_one(word: &str) -> Option<Request>
    ensures { IsRequestIn result (word.now ∷ []) }
{
    if word == "unwrap" {
        Some(Request::Unwrap)
    } else {
        None
    }
}

// What two words ask for.
#[tactic(auto, using(crate::proofs::RequestLemmas::not_two))]
fn of_two(alloc: Global, word: &str, answer: &str) -> Result<Option<Request>, DhcpError>
    ensures { GivesRequest result (word.now ∷ answer.now ∷ []) }
{
    if word != "reply" {
        return Ok(None);
    }
    match hex_field(alloc, answer.as_bytes())? {
        Some(answer) => Ok(Some(Request::Reply(answer))),
        None => Ok(None),
    }
}

// What four words ask for.
#[tactic(auto, using(crate::proofs::RequestLemmas::not_four))]
fn of_four(
    alloc: Global,
    word: &str,
    link: &str,
    peer: &str,
    interface: &str,
) -> Result<Option<Request>, DhcpError>
    ensures { GivesRequest result (word.now ∷ link.now ∷ peer.now ∷ interface.now ∷ []) }
{
    if word != "wrap" {
        return Ok(None);
    }
    let Some(link) = ipv6_field(link.as_bytes()) else {
        return Ok(None);
    };
    let Some(peer) = ipv6_field(peer.as_bytes()) else {
        return Ok(None);
    };
    match hex_field(alloc, interface.as_bytes())? {
        Some(interface) => Ok(Some(Request::Wrap {
            link,
            peer,
            interface,
        })),
        None => Ok(None),
    }
}
