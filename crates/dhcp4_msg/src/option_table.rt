//! Options in a list, with the place of the option of each number.

ghost use Rattle.std.specs.Prelude.{◌≡◌, ◌<◌, length, OnOk, IfErr, MatchResult, IfSome, IsTrue, option_copied, slice_set};
ghost use Rattle.std.specs.List.{All, flat_map};
ghost use Rattle.std.specs.Option.{option_eq};
ghost use Rattle.std.specs.FinMap as map;
ghost use Rattle.dhcp_wire.specs.Error.{no_memory};
ghost use Rattle.dhcp_wire.specs.Outcome.{Makes, Emits};
ghost use Rattle.dhcp4_msg.specs.contracts.option.DhcpV4OptionPartialEq.TheImpl.Laws as option_per;
ghost use Rattle.dhcp4_msg.specs.Laws.{AllStand};
ghost use Rattle.dhcp4_msg.specs.Value.{fits, option_number, written_option};
ghost use Rattle.dhcp4_msg.specs.Options.{
  RiseFrom,
  entry_of,
  parts_of,
  read_options,
  reading_of,
  same_options,
  same_options_per,
  with_entry,
  written_options,
};

use crate::laws::option_widths;
use crate::value::read_value;
use crate::{DhcpV4Option, DhcpV4OptionCode};
use dhcp_wire::{BufferMut, DhcpError, OptionFormat, RawOption, none_if_refused};
use std::alloc::{AllocError, Global};
use std::marker::Model;

// The codes of the options that are a code alone, RFC 2132 sections 3.1 and 3.2.
pub(crate) const PAD: u8 = 0;

pub(crate) const END: u8 = 255;

// How many options a usual message has at most: room for these is made before they are read.
const USUAL_OPTIONS: usize = 16;

// Options and their places. Contracts see it as a finite map from number to option.
#[derive(Debug, Drop)]
pub(crate) struct OptionTable {
    // The options that are kept.
    kept: Vec<DhcpV4Option>,
    // For each number the place of its option among them, if it is there.
    places: [Option<u8>; 256],
}

impl Model for OptionTable {
    ghost use Rattle.std.specs.FinMap as map;
    ghost use Rattle.dhcp4_msg.specs.Options.{OptionMap};
    ghost use Rattle.std.specs.Coded.{coded_ℕ};
    ghost use Rattle.dhcp4_msg.specs.contracts.option.DhcpV4Option as option;

    ghost Value = { OptionMap };

    ghost coded = { map.code coded_ℕ option.the_row.coded };

    ghost use Rattle.dhcp4_msg.specs.Options.{IsIndexed, map_of};

    ghost view = { λ options. map_of options.kept.items };

    ghost invariant = { λ options. IsIndexed options.kept.items options.places };
}

impl PartialEq for OptionTable {
    ghost eq = { same_options ⟦<DhcpV4Option as PartialEq>⟧.eq };

    ghost laws = { same_options_per option_per.laws-law };

    fn eq(&self, other: &Self) -> bool {
        // They are read so that the proof knows what each keeps.
        let _ = &self.kept;
        let _ = &other.kept;
        for number in 0..=u8::MAX {
            if !self.agrees_at(other, number) {
                return false;
            }
        }
        true
    }
}

impl OptionTable {
    // No options. Does not allocate.
    pub(crate) fn new(alloc: Global) -> Self
        ensures { result ≡ map.empty }
    {
        OptionTable {
            kept: Vec::new(alloc),
            places: [None; 256],
        }
    }

    // No options, with room for so many.
    pub(crate) fn with_capacity(alloc: Global, capacity: usize) -> Result<Self, DhcpError>
        ensures { Makes (λ options. options) result map.empty }
    {
        Ok(OptionTable {
            kept: Vec::with_capacity(alloc, capacity)?,
            places: [None; 256],
        })
    }

    // Makes room for so many more options. Out of memory is the only error.
    pub(crate) fn reserve(&mut self, additional: usize) -> Result<(), DhcpError>
        ensures same { self.new ≡ self.old }
        ensures error { IfErr result (λ e. e ≡ no_memory) }
    {
        self.kept.reserve(additional)?;
        Ok(())
    }

    // Keeps the option, in place of the one of its code if there is one. Out of memory is the only
    // error: the option is then dropped, and the others stay as they were.
    #[inline(always)]
    pub(crate) fn insert(&mut self, option: DhcpV4Option) -> Result<(), DhcpError>
        requires { IsTrue (fits option) }
        ensures ok { OnOk result (self.new ≡ map.insert self.old (option_number option) option) }
        ensures err { IfErr result (λ e. (e ≡ no_memory) × (self.new ≡ self.old)) }
    {
        let number = usize::from(u8::from(option.code()));
        match self.places[number] {
            Some(place) => put(&mut self.kept, usize::from(place), option),
            None => {
                let place = self.kept.len();
                self.kept.push(option)?;
                self.places[number] = Some(place as u8);
            }
        }
        Ok(())
    }

    // A copy; out of memory is the only error.
    fn try_clone(&self, alloc: Global) -> Result<Self, DhcpError>
        ensures { Makes (λ made. made) result self.now }
    {
        let mut kept = Vec::with_capacity(alloc, self.kept.len())?;
        for option in &self.kept {
            kept.push(option.try_clone(alloc)?)?;
        }
        Ok(OptionTable {
            kept,
            places: self.places,
        })
    }

    // Reads a list of options, as `DhcpV4Options::parse`.
    pub(crate) fn parse(alloc: Global, raw: &[u8]) -> Result<Self, DhcpError>
        ensures { Makes (λ options. options) result (read_options raw.now) }
    {
        let room = raw.len().min(USUAL_OPTIONS);
        let mut options = OptionTable::with_capacity(alloc, room)?;
        let mut rest = raw;
        while let Some((raw, later)) = OptionFormat::DhcpV4.raw_option_at(rest) {
            options.keep(alloc, raw)?;
            rest = OptionFormat::DhcpV4.counted_after(raw.code, later);
        }
        Ok(options)
    }

    // Keeps the option that a raw option reads as, if it reads.
    #[inline(always)]
    #[tactic(auto, using(crate::proofs::ValueLemmas::option_number_value_of))]
    fn keep(&mut self, alloc: Global, raw: RawOption) -> Result<(), DhcpError>
        requires { (raw.code < 256) × (length raw.value.now < 256) }
        ensures { MatchResult result
            (λ _. self.new ≡ with_entry self.old (entry_of (parts_of raw.entry)))
            (λ e. e ≡ no_memory) }
    {
        match reading_of(alloc, raw)? {
            Some(option) => self.insert(option),
            None => Ok(()),
        }
    }

    // The option of that number, if it is kept: it fits.
    pub(crate) fn kept_at(&self, number: u8) -> Option<&DhcpV4Option>
        ensures value { option_copied result ≡ map.get self.now number }
        ensures own { IfSome result (λ option. option_number option.now ≡ number) }
        ensures fit { IfSome result (λ option. IsTrue (fits option.now)) }
    {
        match self.places[usize::from(number)] {
            Some(place) => Some(&self.kept[usize::from(place)]),
            None => None,
        }
    }

    // How many bytes the options are written in at most, with End.
    pub(crate) fn room(&self) -> usize {
        let mut room = 1usize;
        for option in &self.kept {
            room = room.saturating_add(option.room());
        }
        room
    }

    // Each option stands under its own number, fits, and has the widths of its type.
    pub(crate) fn stand(&self)
        ensures { AllStand self.now }
    {
        for option in &self.kept {
            option_widths(option);
        }
    }

    // Whether both keep equal options under this number, or none.
    fn agrees_at(&self, other: &Self, number: u8) -> bool
        ensures { result ≡ option_eq ⟦<DhcpV4Option as PartialEq>⟧.eq
            (map.get self.now number) (map.get other.now number) }
    {
        self.kept_at(number) == other.kept_at(number)
    }

    // Writes the options, as `DhcpV4Options::emit`.
    #[tactic(auto, unfolding(crate::specs::Options::written_options))]
    pub(crate) fn emit(&self, buf: &mut BufferMut) -> Result<(), DhcpError>
        ensures { Emits result buf.old buf.new (written_options self.now) }
    {
        self.emit_kept(buf)?;
        if self.kept_at(END).is_none() {
            buf.write_u8(END)?;
        }
        Ok(())
    }

    // Writes the options that are kept, by rising number: in the order of the list where that
    // rises, as it does in most messages, else place by place.
    fn emit_kept(&self, buf: &mut BufferMut) -> Result<(), DhcpError>
        ensures { Emits result buf.old buf.new (flat_map written_option (map.values self.now)) }
    {
        if are_rising(self.kept.as_slice()) {
            emit_all(self.kept.as_slice(), buf)
        } else {
            self.emit_by_place(buf)
        }
    }

    // Writes them number by number. End, the last of all numbers, comes after the walk over the
    // table, so that the walk ends with the last of the others.
    fn emit_by_place(&self, buf: &mut BufferMut) -> Result<(), DhcpError>
        ensures { Emits result buf.old buf.new (flat_map written_option (map.values self.now)) }
    {
        let end = self.kept_at(END);
        let last = usize::from(end.is_some());
        let mut left = self.kept.len();
        for place in &self.places {
            if left == last {
                break;
            }
            if let Some(place) = place {
                self.kept[usize::from(*place)].emit(buf)?;
                left -= 1;
            }
        }
        match end {
            Some(option) => option.emit(buf),
            None => Ok(()),
        }
    }
}

impl Clone for OptionTable {
    ghost is_clone = { λ table copy. copy ≡ table };

    fn clone(&self) -> Result<Self, AllocError> {
        self.try_clone(*self.kept.allocator())
            .map_err(|_| AllocError)
    }
}

// Whether the numbers of the options rise.
fn are_rising(options: &[DhcpV4Option]) -> bool
    ensures { IsTrue result → RiseFrom 0 options.now }
{
    let mut least = 0;
    for option in options {
        let number = u16::from(u8::from(option.code()));
        if number < least {
            return false;
        }
        least = number + 1;
    }
    true
}

// Writes options one after the other.
fn emit_all(options: &[DhcpV4Option], buf: &mut BufferMut) -> Result<(), DhcpError>
    requires { All (λ option. IsTrue (fits option)) options.now }
    ensures { Emits result buf.old buf.new (flat_map written_option options.now) }
{
    for option in options {
        option.emit(buf)?;
    }
    Ok(())
}

// Puts the item in place of the one that stands there.
#[inline(always)]
fn put<T: Drop>(items: &mut Vec<T>, place: usize, item: T)
    requires { place < length items.old.items }
    ensures { items.new.items ≡ slice_set items.old.items place item }
{
    items[place] = item;
}

// The reading of a raw option, if it has one.
#[inline(always)]
fn reading_of(alloc: Global, raw: RawOption) -> Result<Option<DhcpV4Option>, DhcpError>
    requires { raw.code < 256 }
    ensures { Makes (λ read. read) result (reading_of (parts_of raw.entry)) }
{
    let code = DhcpV4OptionCode::from(raw.code as u8);
    none_if_refused(read_value(alloc, code, raw.value))
}
