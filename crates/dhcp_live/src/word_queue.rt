//! Random words that are drawn from the front of a queue, and added behind those that are left.

ghost use Rattle.std.specs.Prelude.{◌≡◌, ◌++◌, IfErr, OnOk, length};
ghost use Rattle.dhcp_wire.specs.Error.{no_memory};
ghost use Rattle.dhcp_wire.specs.Outcome.{Makes};

use dhcp_clock::Words;
use dhcp_wire::DhcpError;
use std::alloc::Global;
use std::collections::VecDeque;
use std::marker::Model;

/// Random words, the next one first. After the last one each is 0. Contracts see them as the words
/// that are left.
#[derive(Drop)]
pub struct WordQueue {
    left: VecDeque<u32>,
}

impl Model for WordQueue {
    ghost use Rattle.std.specs.Prelude.{ℕ, List};

    ghost Value = { List ℕ };

    ghost view = { λ words. words.left.items };
}

impl WordQueue {
    /// These words, in their order. Out of memory is the only error.
    pub fn with_words(alloc: Global, words: &[u32]) -> Result<Self, DhcpError>
        ensures { Makes (λ queue. queue) result words.now }
    {
        let mut queue = WordQueue {
            left: VecDeque::new(alloc),
        };
        queue.add(words)?;
        Ok(queue)
    }

    /// Adds words behind those that are left. Out of memory is the only error; a part of them may
    /// then be there.
    pub fn add(&mut self, words: &[u32]) -> Result<(), DhcpError>
        ensures added { OnOk result (self.new ≡ self.old ++ words.now) }
        ensures error { IfErr result (λ error. error ≡ no_memory) }
    {
        for word in words {
            self.left.push_back(*word)?;
        }
        Ok(())
    }

    /// How many words are left.
    pub fn len(&self) -> usize
        ensures { result ≡ length self.now }
    {
        self.left.len()
    }
}

impl Words for WordQueue {
    ghost use Rattle.std.specs.Prelude.{Some, drop};
    ghost use Rattle.dhcp_clock.specs.Words.{next_of};

    ghost left = { λ words. Some words };

    ghost gives = { λ word old new. (word ≡ next_of old) × (new ≡ drop 1 old) };

    fn next_word(&mut self) -> u32 {
        self.left.pop_front().unwrap_or(0)
    }
}
