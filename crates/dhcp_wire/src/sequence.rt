//! Lists that contracts see as the list of their items.

ghost use Rattle.std.specs.Prelude.{◌≡◌, ◌↔◌, [], ◌∷◌, ◌++◌, List, length, IsTrue, MatchResult};
ghost use Rattle.std.specs.Cmp.Lexicographic.{pointwise, slice_cmp, slice_partial_cmp, lists_agrees, lists_equiv, lists_per, lists_po, lists_ties, lists_total};
ghost use Rattle.dhcp_wire.specs.Error.{no_memory};
ghost use Rattle.dhcp_wire.specs.Outcome.{Makes};

use crate::{DhcpError, TryClone};
use std::alloc::Global;
use std::cmp::Ordering;
use std::marker::Model;

/// A list that contracts see as the list of its items, also as a field of another type. Lists are
/// ordered as slices are: by the first item that differs, and else by length.
#[derive(Debug, Drop)]
pub struct Sequence<T> {
    kept: Vec<T>,
}

/// A list of bytes.
pub type Bytes = Sequence<u8>;

impl<T> Model for Sequence<T> {
    ghost Value = { List T };

    ghost view = { λ sequence. sequence.kept.items };
}

impl<T: PartialEq> PartialEq for Sequence<T> {
    ghost eq = { λ x y. pointwise T.eq x y };

    ghost laws = { lists_per T.laws };

    fn eq(&self, other: &Self) -> bool {
        self.kept.as_slice() == other.kept.as_slice()
    }
}

impl<T: Eq> Eq for Sequence<T> {
    ghost laws = { lists_equiv T.Eq.laws };
}

impl<T: PartialOrd> PartialOrd for Sequence<T> {
    ghost partial_cmp = { λ x y. slice_partial_cmp T.partial_cmp x y };

    ghost laws = { lists_po T.PartialOrd.laws };

    fn partial_cmp(&self, other: &Self) -> Option<Ordering> {
        self.kept.as_slice().partial_cmp(other.kept.as_slice())
    }
}

impl<T: Ord> Ord for Sequence<T> {
    ghost cmp = { λ x y. slice_cmp T.cmp x y };

    ghost total = { lists_total T.total };

    ghost matches_partial_cmp = { lists_agrees T.matches_partial_cmp };

    ghost matches_eq = { lists_ties T.cmp T.matches_eq };

    fn cmp(&self, other: &Self) -> Ordering {
        self.kept.as_slice().cmp(other.kept.as_slice())
    }
}

impl<T> From<Vec<T>> for Sequence<T> {
    ghost from_gives = { λ items sequence. sequence ≡ items.items };

    fn from(items: Vec<T>) -> Self {
        Sequence { kept: items }
    }
}

impl<T> Sequence<T> {
    /// An empty list. Does not allocate.
    pub fn new(alloc: Global) -> Self
        ensures { result ≡ [] }
    {
        Sequence {
            kept: Vec::new(alloc),
        }
    }

    /// Its items.
    pub fn as_slice(&self) -> &[T]
        ensures { result.now ≡ self.now }
    {
        self.kept.as_slice()
    }

    /// How many items it has.
    pub fn len(&self) -> usize
        ensures { result ≡ length self.now }
    {
        self.kept.len()
    }

    /// Whether it has no items.
    pub fn is_empty(&self) -> bool
        ensures { IsTrue result ↔ (self.now ≡ []) }
    {
        self.kept.is_empty()
    }

    /// The vector of its items. Does not allocate.
    pub fn into_vec(self) -> Vec<T>
        ensures { result.items ≡ self }
    {
        let Sequence { kept } = self;
        kept
    }
}

impl<T: Drop> Sequence<T> {
    /// Puts the item at the end. Out of memory is the only error: the item is then dropped, and the
    /// list stays as it was.
    pub fn push(&mut self, item: T) -> Result<(), DhcpError>
        ensures { MatchResult result
            (λ _. self.new ≡ self.old ++ item ∷ [])
            (λ e. (e ≡ no_memory) × (self.new ≡ self.old)) }
    {
        self.kept.push(item)?;
        Ok(())
    }
}

impl<T: Copy> Sequence<T> {
    /// The list of these items; out of memory is the only error.
    pub fn from_slice(alloc: Global, items: &[T]) -> Result<Self, DhcpError>
        ensures { Makes (λ sequence. sequence) result items.now }
    {
        Ok(Sequence {
            kept: Vec::from_slice(alloc, items)?,
        })
    }

    /// A copy; out of memory is the only error.
    pub fn try_clone(&self, alloc: Global) -> Result<Self, DhcpError>
        ensures { Makes (λ sequence. sequence) result self.now }
    {
        Self::from_slice(alloc, self.as_slice())
    }
}

impl<T: TryClone> TryClone for Sequence<T> {
    fn try_clone(&self, alloc: Global) -> Result<Self, DhcpError> {
        let mut copy = Vec::with_capacity(alloc, self.kept.len())?;
        for item in &self.kept {
            copy.push(item.try_clone(alloc)?)?;
        }
        Ok(Sequence { kept: copy })
    }
}
