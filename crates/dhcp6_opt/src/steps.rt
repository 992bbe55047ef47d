//! Counting steps, at no cost: a bound on them is a clause.

ghost use Rattle.std.specs.Prelude.{◌≡◌, ◌+◌, ◌<◌, ◌≤◌, ℕ};

use std::marker::Model;
use std::sync::ledger::{Book, Ledger, Share};

/// How many steps were taken. Contracts see their number; it takes no bytes, and a step has no
/// code.
#[derive(Drop)]
pub struct Steps<L: Ledger> {
    book: Book<L>,
    share: Share<L>,
}

impl<L: Ledger> Model for Steps<L> {
    ghost Value = { ℕ };

    ghost view = { λ steps. steps.book.total };

    ghost invariant = { λ steps. 0 < steps.share.parts };
}

impl<L: Ledger> Steps<L> {
    /// Counts on from the total of a ledger, with one of its shares.
    pub fn new(book: Book<L>, share: Share<L>) -> Self
        requires { 0 < share.parts }
        ensures { result ≡ book.total }
    {
        Steps { book, share }
    }

    /// Counts one step.
    pub fn tick(&mut self)
        ensures { self.new ≡ self.old + 1 }
    {
        self.book.add(&mut self.share, 1);
    }
}

// What counts the steps of a search, if anything does.
pub(crate) trait StepCounter {
    // How many were counted.
    ghost counted: { Self → ℕ };

    // How many a step counts at least.
    ghost least: { ℕ };

    // Counts one step at most.
    fn step(&mut self)
        ensures most { counted self.new ≤ counted self.old + 1 }
        ensures least { counted self.old + least ≤ counted self.new };
}

impl<L: Ledger> StepCounter for Steps<L> {
    ghost counted = { λ steps. steps };

    ghost least = { 1 };

    fn step(&mut self) {
        self.tick();
    }
}

// Counts nothing.
#[derive(Drop)]
pub(crate) struct Uncounted;

impl StepCounter for Uncounted {
    ghost counted = { λ _. 0 };

    ghost least = { 0 };

    fn step(&mut self) {}
}
