//! The options of a message, by their codes.

mod equality;
mod index;
mod said;

ghost use Rattle.std.specs.Prelude.{◌≡◌, ◌+◌, ◌-◌, ◌*◌, ◌^◌, ◌<◌, ◌≤◌, [], ◌∷◌, ◌++◌, map, IfErr, IfOk, IfSome, IsTrue, OnOk, option_copied, option_map, vec_capacity, vec_items, vec_len};
ghost use Rattle.std.specs.List.{filter, flat_map, All, AllByRecursion};
ghost use Rattle.std.specs.List.Sorted.{IsNonDecreasingBy};
ghost use Rattle.std.specs.Cmp.{on_per, on_equiv, and_per, and_equiv, nat_eq_equiv, partial_equiv_from_equiv};
ghost use Rattle.std.specs.Cmp.Lexicographic.{pointwise, lists_per, lists_equiv};
ghost use Rattle.std.specs.FinMap as map;
ghost use Rattle.dhcp_wire.specs.Error.{no_memory};
ghost use Rattle.dhcp_wire.specs.Outcome.{Makes, Emits};
ghost use Rattle.dhcp6_opt.specs.contracts.option.DhcpV6OptionPartialEq.TheImpl.Laws as option_per;
ghost use Rattle.dhcp6_opt.specs.contracts.option.DhcpV6OptionEq.TheImpl.Laws as option_equiv;
ghost use Rattle.dhcp6_opt.specs.Laws.{AllStand};
ghost use Rattle.dhcp6_opt.specs.OptionCode.{number_of};
ghost use Rattle.dhcp6_opt.specs.OptionIndex.{AreGroups, has_number, same_entry};
ghost use Rattle.dhcp6_opt.specs.Options.{first_of, options_in, read_options, reading_of, with_option, written_options};
ghost use Rattle.dhcp6_opt.specs.RawOption.{parts_of};
ghost use Rattle.dhcp6_opt.specs.Value.{fits, option_number, written_option};

use crate::steps::{StepCounter, Uncounted};
use crate::value::read_value;
use crate::widths::all_have;
use crate::{DhcpV6Option, DhcpV6OptionCode, Steps};
use dhcp_wire::{BufferMut, DhcpError, OptionFormat, RawOption, TryClone, none_if_refused};
use equality::{same_in_order, same_lists};
use index::{IndexEntry, entry_of, first_place, index_of, set_firsts};
use std::alloc::Global;
use std::marker::Model;
use std::sync::ledger::Ledger;

// How many options a usual message has at most: room for these is made before they are read.
const USUAL_OPTIONS: usize = 6;

// How many bytes the code and the length of an option have.
const OPTION_HEADER_LEN: usize = 4;

/// The options of a message, RFC 8415 section 21. Contracts see, for each code number that is kept,
/// by rising number, the list of its options in order of insertion.
#[derive(Debug, Drop)]
pub struct DhcpV6Options {
    // Gives the memory in which a write puts the options in order.
    alloc: Global,
    // The options, in order of insertion.
    kept: Vec<DhcpV6Option>,
    // Where the first option of each code is, by rising number.
    index: Vec<IndexEntry>,
}

impl Model for DhcpV6Options {
    ghost use Rattle.std.specs.FinMap as map;
    ghost use Rattle.dhcp6_opt.specs.Options.{OptionLists, lists_of};
    ghost use Rattle.std.specs.Coded.{coded_list, coded_ℕ};
    ghost use Rattle.dhcp6_opt.specs.contracts.option.DhcpV6Option as option;

    ghost Value = { OptionLists };

    ghost coded = { map.code coded_ℕ (coded_list option.the_row.coded) };

    ghost use Rattle.dhcp6_opt.specs.OptionIndex.{IsIndexed};

    ghost view = { λ options. lists_of options.kept.items };

    ghost invariant = { λ options. IsIndexed options.kept.items options.index.items };
}

impl PartialEq for DhcpV6Options {
    ghost eq = { λ x y. pointwise (same_entry ⟦<DhcpV6Option as PartialEq>⟧.eq)
        (map.entries x) (map.entries y) };

    ghost laws = { on_per map.entries (lists_per (and_per
        (on_per (λ p. p.0) (partial_equiv_from_equiv nat_eq_equiv))
        (on_per (λ p. p.1) (lists_per option_per.laws-law)))) };

    fn eq(&self, other: &Self) -> bool {
        if let Ok(same) = self.same_in_order(other) {
            return same;
        }
        self.same_by_number(other)
    }
}

impl Eq for DhcpV6Options {
    ghost laws = { on_equiv map.entries (lists_equiv (and_equiv
        (on_equiv (λ p. p.0) nat_eq_equiv)
        (on_equiv (λ p. p.1) (lists_equiv option_equiv.laws-law)))) };
}

impl DhcpV6Options {
    /// No options. Does not allocate.
    pub fn new(alloc: Global) -> Self
        ensures { result ≡ map.empty }
    {
        DhcpV6Options {
            alloc,
            kept: Vec::new(alloc),
            index: Vec::new(alloc),
        }
    }

    /// No options, with room for so many, which spares the growth in steps. Contracts do not see
    /// the room. Out of memory is the only error.
    pub fn with_capacity(alloc: Global, capacity: usize) -> Result<Self, DhcpError>
        ensures { Makes (λ options. options) result map.empty }
    {
        Ok(DhcpV6Options {
            alloc,
            kept: Vec::with_capacity(alloc, capacity)?,
            index: Vec::with_capacity(alloc, capacity)?,
        })
    }

    /// The first option of that code, if one is kept: it has the code's number, and can be written.
    pub fn get_first(&self, code: DhcpV6OptionCode) -> Option<&DhcpV6Option>
        ensures value { option_copied result ≡ first_of self.now (number_of code) }
        ensures kept { IfSome result (λ option.
            (option_number option.now ≡ number_of code) × IsTrue (fits option.now)) }
    {
        self.first_counted(code, &mut Uncounted)
    }

    /// The same, with each comparison of codes counted as a step: with n codes kept and s steps,
    /// 2^s is at most 2n + 1, and s is 1 or more unless n is 0. Does not allocate.
    pub fn get_first_counted<L: Ledger>(
        &self,
        code: DhcpV6OptionCode,
        steps: &mut Steps<L>,
    ) -> Option<&DhcpV6Option>
        ensures value { option_copied result ≡ first_of self.now (number_of code) }
        ensures kept { IfSome result (λ option.
            (option_number option.now ≡ number_of code) × IsTrue (fits option.now)) }
        ensures cost { 2 ^ (steps.new - steps.old) ≤ 2 * map.len self.now + 1 }
        ensures counted { 0 < map.len self.now → steps.old < steps.new }
    {
        self.first_counted(code, steps)
    }

    // The first option of that code, found by halving the index.
    fn first_counted<S: StepCounter>(
        &self,
        code: DhcpV6OptionCode,
        steps: &mut S,
    ) -> Option<&DhcpV6Option>
        ensures value { option_copied result ≡ first_of self.now (number_of code) }
        ensures kept { IfSome result (λ option.
            (option_number option.now ≡ number_of code) × IsTrue (fits option.now)) }
        ensures cost { 2 ^ (S.counted steps.new - S.counted steps.old) ≤ 2 * map.len self.now + 1 }
        ensures counted { 0 < map.len self.now
            → S.counted steps.old + S.least ≤ S.counted steps.new }
    {
        match entry_of(&self.index, u16::from(code), steps) {
            Ok(place) => Some(&self.kept[self.index[place].first]),
            Err(_) => None,
        }
    }

    /// Keeps the option, after those of its code. Out of memory is the only error: the option is
    /// then dropped, and the others stay as they were.
    #[inline(always)]
    pub fn insert(&mut self, opt: DhcpV6Option) -> Result<(), DhcpError>
        requires { IsTrue (fits opt) }
        ensures ok { OnOk result (self.new ≡ with_option self.old opt) }
        ensures err { IfErr result (λ e. (e ≡ no_memory) × (self.new ≡ self.old)) }
    {
        let number = u16::from(opt.code());
        let first = self.kept.len();
        push_with_room(&mut self.kept, opt, &mut self.index)?;
        if let Err(place) = entry_of(&self.index, number, &mut Uncounted) {
            self.index.insert(place, IndexEntry { number, first })?;
        }
        Ok(())
    }

    /// Removes all options of that code. Does not allocate.
    pub fn remove(&mut self, code: DhcpV6OptionCode)
        ensures { self.new ≡ map.remove self.old (number_of code) }
    {
        let number = u16::from(code);
        if let Ok(place) = entry_of(&self.index, number, &mut Uncounted) {
            let _ = self.index.remove(place);
            self.kept.retain(|option| !has_number(option, number));
            set_firsts(&self.kept, &mut self.index);
        }
    }

    /// Reads a list of options, RFC 8415 section 21.1. An option without a reading is skipped, and
    /// a truncated one ends the list. Out of memory is the only error.
    pub fn parse(alloc: Global, raw: &[u8]) -> Result<Self, DhcpError>
        ensures { Makes (λ options. options) result (read_options raw.now) }
    {
        let kept = options_in(alloc, raw)?;
        let index = index_of(alloc, &kept)?;
        Ok(DhcpV6Options { alloc, kept, index })
    }

    /// Writes the options by rising code, those of one code in order of insertion. Out of memory is
    /// the only error; some of the bytes are then written.
    pub fn emit(&self, buf: &mut BufferMut) -> Result<(), DhcpError>
        ensures { Emits result buf.old buf.new (written_options self.now) }
    {
        if are_in_code_order(&self.kept) {
            emit_kept(&self.kept, buf)
        } else {
            emit_references(&self.in_code_order()?, buf)
        }
    }

    // The options by rising code, those of one code in order of insertion.
    fn in_code_order(&self) -> Result<Vec<&DhcpV6Option>, DhcpError>
        ensures value { Makes (λ ordered. map (λ option. option.now) ordered.items) result
            (flat_map (λ options. options) (map.values self.now)) }
        ensures fit { IfOk result (λ ordered.
            All (λ option. IsTrue (fits option.now)) ordered.items) }
        ensures groups { IfOk result (λ _. AreGroups (map.entries self.now)) }
    {
        let mut ordered: Vec<&DhcpV6Option> = self.kept.iter().collect(self.alloc)?;
        ordered.sort_by_key(|option| u16::from(option.code()))?;
        Ok(ordered)
    }

    /// What each option of this code is written as, if one is kept: its code, the length of its
    /// value, and the value. Out of memory is the only error.
    pub fn get_data_raw(&self, alloc: Global, code: u16) -> Result<Option<Vec<Vec<u8>>>, DhcpError>
        ensures { Makes (option_map (λ written. map vec_items written.items)) result
            (option_map (map written_option) (map.get self.now code)) }
    {
        match first_place(&self.index, code) {
            Some(_) => written_numbered(alloc, &self.kept, code).map(Some),
            None => Ok(None),
        }
    }

    // Whether both have the same options in code order. Out of memory is the only error.
    fn same_in_order(&self, other: &Self) -> Result<bool, DhcpError>
        ensures { IfOk result (λ same. same
            ≡ pointwise (same_entry ⟦<DhcpV6Option as PartialEq>⟧.eq)
            (map.entries self.now) (map.entries other.now)) }
    {
        let mine = self.in_code_order()?;
        let theirs = other.in_code_order()?;
        Ok(same_in_order(&mine, &theirs))
    }

    // The same without memory, number by number.
    fn same_by_number(&self, other: &Self) -> bool
        ensures { result ≡ pointwise (same_entry ⟦<DhcpV6Option as PartialEq>⟧.eq)
            (map.entries self.now) (map.entries other.now) }
    {
        same_lists(&self.kept, &self.index, &other.kept, &other.index)
    }

    // Under each number that is there, there is an option, and each stands there.
    pub(crate) fn stand(&self)
        ensures { AllStand self.now }
    {
        all_have(&self.kept);
    }

    /// A copy; out of memory is the only error.
    pub fn try_clone(&self, alloc: Global) -> Result<Self, DhcpError>
        ensures { Makes (λ made. made) result self.now }
    {
        let mut kept = Vec::with_capacity(alloc, self.kept.len())?;
        for option in &self.kept {
            kept.push(option.try_clone(alloc)?)?;
        }
        Ok(DhcpV6Options {
            alloc,
            kept,
            index: Vec::from_slice(alloc, &self.index)?,
        })
    }
}

impl TryClone for DhcpV6Options {
    fn try_clone(&self, alloc: Global) -> Result<Self, DhcpError> {
        DhcpV6Options::try_clone(self, alloc)
    }
}

// Adds a value at the end of a list, once a second list has room for one more item. Out of memory
// is the only error, and leaves both as they were. The value is of a type parameter: where it is an
// option, each call that may fail while it is owned is proved for each kind of option.
#[inline(always)]
fn push_with_room<T: Drop, E>(
    list: &mut Vec<T>,
    value: T,
    second: &mut Vec<E>,
) -> Result<(), DhcpError>
    ensures kept { second.new.items ≡ second.old.items }
    ensures room { OnOk result (vec_len second.new + 1 ≤ vec_capacity second.new) }
    ensures ok { OnOk result (list.new.items ≡ list.old.items ++ value ∷ []) }
    ensures err { IfErr result (λ e. (e ≡ no_memory) × (list.new.items ≡ list.old.items)) }
{
    second.reserve(1)?;
    list.push(value)?;
    Ok(())
}

// The options of a list of bytes that read, from the first on. Out of memory is the only error.
fn options_in(alloc: Global, bytes: &[u8]) -> Result<Vec<DhcpV6Option>, DhcpError>
    ensures value { Makes (λ options. options.items) result (options_in bytes.now) }
    ensures fit { IfOk result (λ options.
        AllByRecursion (λ option. IsTrue (fits option)) options.items) }
{
    let room = USUAL_OPTIONS.min(bytes.len() / OPTION_HEADER_LEN);
    let mut options = Vec::with_capacity(alloc, room)?;
    let mut rest = bytes;
    while let Some((raw, later)) = OptionFormat::DhcpV6.raw_option_at(rest) {
        if let Some(option) = reading_of(alloc, raw)? {
            options.push(option)?;
        }
        rest = later;
    }
    Ok(options)
}

// The reading of a raw option, if it has one.
#[inline(always)]
fn reading_of(alloc: Global, raw: RawOption) -> Result<Option<DhcpV6Option>, DhcpError>
    ensures { Makes (λ read. read) result (reading_of (parts_of raw.entry)) }
{
    none_if_refused(read_value(alloc, DhcpV6OptionCode::from(raw.code), raw.value))
}

// Whether an option has this number.
fn has_number(option: &DhcpV6Option, number: u16) -> bool
    ensures { result ≡ has_number number option.now }
{
    number == u16::from(option.code())
}

// Whether the codes of the options do not fall.
fn are_in_code_order(options: &[DhcpV6Option]) -> bool
    ensures { IsTrue result → IsNonDecreasingBy option_number options.now }
{
    options.is_sorted_by_key(|option| u16::from(option.code()))
}

// Writes options one after the other.
fn emit_kept(options: &[DhcpV6Option], buf: &mut BufferMut) -> Result<(), DhcpError>
    requires { All (λ option. IsTrue (fits option)) options.now }
    ensures { Emits result buf.old buf.new (flat_map written_option options.now) }
{
    for option in options {
        option.emit(buf)?;
    }
    Ok(())
}

// Writes options behind references one after the other.
fn emit_references(options: &[&DhcpV6Option], buf: &mut BufferMut) -> Result<(), DhcpError>
    requires { All (λ option. IsTrue (fits option.now)) options.now }
    ensures { Emits result buf.old buf.new
        (flat_map (λ option. written_option option.now) options.now) }
{
    for option in options {
        option.emit(buf)?;
    }
    Ok(())
}

// What each of some options that have this number is written as.
fn written_numbered(
    alloc: Global,
    options: &[DhcpV6Option],
    number: u16,
) -> Result<Vec<Vec<u8>>, DhcpError>
    requires { AllByRecursion (λ option. IsTrue (fits option)) options.now }
    ensures { Makes (λ written. map vec_items written.items) result
        (map written_option (filter (has_number number) options.now)) }
{
    let mut written = Vec::new(alloc);
    for option in options {
        if has_number(option, number) {
            let mut buf = BufferMut::new(alloc);
            option.emit(&mut buf)?;
            written.push(buf.into_bytes().into_vec())?;
        }
    }
    Ok(written)
}
