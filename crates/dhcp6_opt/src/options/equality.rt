//! Whether two lists of options are equal: by rising code the same codes, and of each the same
//! options in order of insertion.

ghost use Rattle.std.specs.Prelude.{◌≡◌, ◌<◌, ◌∷◌, [], IfSome, MatchOption, length, map};
ghost use Rattle.std.specs.Cmp.Lexicographic.{pointwise};
ghost use Rattle.std.specs.List.{filter};
ghost use Rattle.dhcp6_opt.specs.OptionIndex.{entry_in, has_number, same_entry};

use super::has_number;
use super::index::IndexEntry;
use crate::DhcpV6Option;

// Whether options in code order are equal, one by one.
pub(crate) fn same_in_order(mine: &[&DhcpV6Option], theirs: &[&DhcpV6Option]) -> bool
    ensures { result ≡ pointwise ⟦<DhcpV6Option as PartialEq>⟧.eq
        (map (λ option. option.now) mine.now) (map (λ option. option.now) theirs.now) }
{
    mine == theirs
}

// Whether both have the same numbers, and of each the same options: without memory, and in time
// that grows with how many numbers there are times how many options.
pub(crate) fn same_lists(
    mine: &[DhcpV6Option],
    my_index: &[IndexEntry],
    theirs: &[DhcpV6Option],
    their_index: &[IndexEntry],
) -> bool
    ensures { result ≡ pointwise (same_entry ⟦<DhcpV6Option as PartialEq>⟧.eq)
        (map (entry_in mine.now) my_index.now) (map (entry_in theirs.now) their_index.now) }
{
    let mut rest = my_index;
    let mut others = their_index;
    while let Some((entry, later)) = rest.split_first() {
        let Some((other, others_later)) = others.split_first() else {
            return false;
        };
        if entry.number != other.number || !same_numbered(entry.number, mine, theirs) {
            return false;
        }
        rest = later;
        others = others_later;
    }
    others.is_empty()
}

// Whether both have the same options of this number.
fn same_numbered(number: u16, mine: &[DhcpV6Option], theirs: &[DhcpV6Option]) -> bool
    ensures { result ≡ pointwise ⟦<DhcpV6Option as PartialEq>⟧.eq
        (filter (has_number number) mine.now) (filter (has_number number) theirs.now) }
{
    let mut rest = mine;
    let mut others = theirs;
    while let Some((option, later)) = next_numbered(number, rest) {
        let Some((other, others_later)) = next_numbered(number, others) else {
            return false;
        };
        if option != other {
            return false;
        }
        rest = later;
        others = others_later;
    }
    next_numbered(number, others).is_none()
}

// The first of some options that has this number, and those after it.
fn next_numbered(number: u16, options: &[DhcpV6Option]) -> Option<(&DhcpV6Option, &[DhcpV6Option])>
    ensures next { MatchOption result
        (filter (has_number number) options.now ≡ [])
        (λ found. filter (has_number number) options.now
        ≡ found.0.now ∷ filter (has_number number) found.1.now) }
    ensures shorter { IfSome result (λ found. length found.1.now < length options.now) }
{
    let mut rest = options;
    while let Some((option, later)) = rest.split_first() {
        if has_number(option, number) {
            return Some((option, later));
        }
        rest = later;
    }
    None
}
