//! An answer relayed back along the way of a message, RFC 8415 sections 19.2 and 19.3.

ghost use Rattle.dhcp6_relay.specs.Outcome.{Gives};
ghost use Rattle.dhcp6_relay.specs.Reply.{reply_of, layers_of};

use crate::RelayError;
use crate::layer::{Layer, emit_around};
use crate::view::{RelayView, is_forward};
use dhcp_wire::Bytes;
use std::alloc::Global;

// How many layers a message has at most.
const MAX_LAYERS: usize = 9;

/// The Relay-reply that brings an answer back along the way of a Relay-forward: it has the layers
/// of that, each with its hop count, its addresses and its interface id, and the answer inside
/// them. The layers end at the first message that is no Relay-forward. `NotRelay` if and only if
/// `forward` is no Relay-forward; else the first of these, from the outmost layer on: `TooManyHops`
/// at a tenth layer, `Short` or `NoMessage` at a layer that does not read. Then `TooLong` if the
/// result would be longer than 65,535 bytes. Else out of memory is the only error.
#[tactic(auto, unfolding(crate::specs::Reply::reply_of))]
pub fn reply_along(alloc: Global, forward: &[u8], answer: &[u8]) -> Result<Bytes, RelayError>
    ensures { Gives (λ reply. reply) result (reply_of forward.now answer.now) }
{
    let layers = layers_of(alloc, forward)?;
    emit_around(alloc, false, layers.as_slice(), answer)
}

// The layers of a Relay-forward, the outmost first.
#[tactic(auto, using(crate::proofs::LayersLemmas::layer_by_layer))]
fn layers_of<'a>(alloc: Global, forward: &'a [u8]) -> Result<Vec<Layer<'a>>, RelayError>
    ensures { Gives (λ layers. layers.items) result (layers_of forward.now) }
{
    if !is_forward(forward) {
        return Err(RelayError::NotRelay);
    }
    let mut layers = Vec::with_capacity(alloc, MAX_LAYERS)?;
    let mut message = forward;
    while is_forward(message) {
        if layers.len() == MAX_LAYERS {
            return Err(RelayError::TooManyHops);
        }
        let RelayView { layer, inner, .. } = RelayView::read(message)?;
        layers.push(layer)?;
        message = inner;
    }
    Ok(layers)
}
