//! A protocol of one's own over the steps of dhcp_history: a client that asks until a packet comes,
//! holds what it got for five seconds, and asks again.

ghost use Rattle.std.specs.Prelude.{◌≡◌, ◌+◌, ◌%◌, Some, None, IfOk, Ok, [], ◌∷◌};

use dhcp_clock::{Handed, Packet, Words};
use dhcp_history::{AttemptStart, NewAttempt, Rules};
use dhcp_wire::Bytes;
use std::alloc::{AllocError, Global};

/// The rules of the client. Its state is `None` while it asks, or the moment in milliseconds up to
/// which it holds what it got.
#[derive(Drop)]
pub struct Repeater {
    /// Where the messages are made.
    pub alloc: Global,
}

// A frame of one byte.
fn message(alloc: Global, first: u8) -> Result<Handed, AllocError>
    ensures { IfOk result (λ made. made ≡ Handed.Frame (first ∷ [])) }
{
    let mut bytes = Vec::new(alloc);
    bytes.push(first)?;
    Ok(Handed::Frame(Bytes::from(bytes)))
}

impl Rules for Repeater {
    ghost use Rattle.dhcp_clock.specs.declared.link.Handed.TheVariants.{Frame};
    ghost use Rattle.dhcp_clock.specs.Words.{next_of};
    ghost use Rattle.std.specs.Prelude.{is_none, is_some, drop, false, Some, None, [], ◌∷◌, ◌+◌, ◌%◌, if◌then◌else◌};

    type PublicState = bool;

    type State = Option<u64>;

    type Exchange = u32;

    type Answer = u8;

    type Lease = u64;

    ghost protocol = { λ rules. record {
      public_state = λ state. is_some state;
      has_attempts = λ state. is_none state;
      pause = λ state count words. record { value = 0; left = words };
      attempt = λ state count start words. record {
        value = record {
          wait = 1000 + next_of words % 1000;
          message = Frame (1 ∷ []);
          exchange = count;
        };
        left = drop 1 words;
      };
      after_wait = λ count. count;
      is_last_attempt = λ state count. false;
      reading = λ state count packet words. record {
        value = if is_none state then Some 7 else None;
        left = words;
      };
      ending_moment = λ state. state;
      after_answer = λ state answer now count. record {
        state = Some (now + 5000);
        exchange = count;
      };
      after_end = λ state count. record { state = None; exchange = count };
      after_clean_up = λ count. record { state = None; exchange = count };
      held_lease = λ state. state;
      release_message = λ lease count. Frame (2 ∷ []);
    } };

    ghost may_answer = { λ rules state count packet. is_none state };

    fn ending_moment(&self, state: &Option<u64>) -> Option<u64> {
        *state
    }

    fn has_attempts(&self, state: &Option<u64>) -> bool {
        state.is_none()
    }

    fn is_last_attempt(&self, state: &Option<u64>, exchange: u32) -> bool {
        false
    }

    fn after_wait(&self, exchange: u32) -> u32 {
        exchange
    }

    fn pause<W: Words>(&self, state: &Option<u64>, exchange: u32, words: &mut W) -> u64 {
        0
    }

    fn attempt<W: Words>(
        &self,
        state: &Option<u64>,
        exchange: u32,
        start: AttemptStart,
        words: &mut W,
    ) -> Result<NewAttempt<u32, Handed>, AllocError> {
        let word = words.next_word();
        let message = message(self.alloc, 1)?;
        Ok(NewAttempt {
            wait: 1000 + word as u64 % 1000,
            message,
            exchange,
        })
    }

    fn reading<W: Words>(
        &self,
        state: &Option<u64>,
        exchange: u32,
        packet: Packet,
        words: &mut W,
    ) -> Result<Option<u8>, AllocError> {
        if state.is_none() {
            Ok(Some(7))
        } else {
            Ok(None)
        }
    }

    fn after_answer(
        &self,
        state: &mut Option<u64>,
        answer: u8,
        now: u64,
        exchange: &mut u32,
    ) -> Result<bool, AllocError> {
        *state = Some(now + 5000);
        Ok(true)
    }

    fn after_end(&self, state: &mut Option<u64>, exchange: &mut u32) -> bool {
        *state = None;
        false
    }

    fn after_clean_up(&self, state: &mut Option<u64>, exchange: &mut u32) {
        *state = None;
    }

    fn release_message(
        &self,
        state: &Option<u64>,
        exchange: u32,
    ) -> Result<Option<Handed>, AllocError> {
        match state {
            None => Ok(None),
            Some(_) => Ok(Some(message(self.alloc, 2)?)),
        }
    }
}
