//! An index from each code to its first option.

ghost use Rattle.std.specs.Prelude.{◌≡◌, ◌+◌, ◌-◌, ◌*◌, ◌^◌, ◌<◌, ◌≤◌, ℕ, length, is_some, position, IsTrue, MatchResult};
ghost use Rattle.std.specs.List.{AllByRecursion};
ghost use Rattle.dhcp_wire.specs.Error.{no_memory};
ghost use Rattle.dhcp6_opt.specs.OptionIndex.{first_place, GoesAt, has_number, IsEntryAt, IsIndexed, Rises};
ghost use Rattle.dhcp6_opt.specs.Value.{fits};

use crate::DhcpV6Option;
use crate::steps::{StepCounter, Uncounted};
use dhcp_wire::DhcpError;
use std::alloc::Global;
use std::cmp::Ordering;

// Where the first option of a code is.
#[derive(Clone, Copy, Debug)]
pub(crate) struct IndexEntry {
    // The number of the code.
    pub(crate) number: u16,
    // The position of its first option.
    pub(crate) first: usize,
}

// The index of some options: an entry for each code, by rising number. Out of memory is the only
// error.
pub(crate) fn index_of(alloc: Global, kept: &[DhcpV6Option]) -> Result<Vec<IndexEntry>, DhcpError>
    requires { AllByRecursion (λ option. IsTrue (fits option)) kept.now }
    ensures { MatchResult result
        (λ entries. IsIndexed kept.now entries.items) (λ e. e ≡ no_memory) }
{
    let mut entries = Vec::with_capacity(alloc, kept.len())?;
    for option in kept {
        let number = u16::from(option.code());
        let first = entries.len();
        entries.push(IndexEntry { number, first })?;
    }
    entries.sort_by_key(|entry| entry.number)?;
    entries.dedup_by_key(|entry| entry.number);
    Ok(entries)
}

// Where the entry of this number is, or else where it would go. A step is a comparison of numbers.
pub(crate) fn entry_of<S: StepCounter>(
    entries: &[IndexEntry],
    number: u16,
    steps: &mut S,
) -> Result<usize, usize>
    requires { Rises entries.now }
    ensures place { MatchResult result (IsEntryAt entries.now number) (GoesAt entries.now number) }
    ensures cost { 2 ^ (S.counted steps.new - S.counted steps.old) ≤ 2 * length entries.now + 1 }
    ensures counted { 0 < length entries.now → S.counted steps.old + S.least ≤ S.counted steps.new }
{
    let mut low = 0;
    let mut high = entries.len();
    while low < high {
        let middle = low + (high - low) / 2;
        steps.step();
        match entries[middle].number.cmp(&number) {
            Ordering::Less => low = middle + 1,
            Ordering::Equal => return Ok(middle),
            Ordering::Greater => high = middle,
        }
    }
    Err(low)
}

// The position of the first option of this number.
pub(crate) fn first_place(entries: &[IndexEntry], number: u16) -> Option<usize>
    requires { Rises entries.now }
    ensures { result ≡ first_place number entries.now }
{
    match entry_of(entries, number, &mut Uncounted) {
        Ok(place) => Some(entries[place].first),
        Err(_) => None,
    }
}

// Sets each entry to the first option of its number.
pub(crate) fn set_firsts(kept: &[DhcpV6Option], entries: &mut Vec<IndexEntry>)
    requires rises { Rises entries.old.items }
    requires same { (number : ℕ) → is_some (first_place number entries.old.items)
        ≡ is_some (position (has_number number) kept.now) }
    ensures rises { Rises entries.new.items }
    ensures firsts { (number : ℕ)
        → first_place number entries.new.items ≡ position (has_number number) kept.now }
{
    let mut left = kept.len();
    while left > 0 {
        left -= 1;
        let number = u16::from(kept[left].code());
        if let Ok(place) = entry_of(entries, number, &mut Uncounted) {
            entries[place] = IndexEntry {
                number,
                first: left,
            };
        }
    }
}
