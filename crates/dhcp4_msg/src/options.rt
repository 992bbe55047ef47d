//! The options of a message, by their numbers.

ghost use Rattle.std.specs.Prelude.{◌≡◌, OnOk, IfErr, IfSome, IsTrue, option_copied, option_map, unwrap_or, vec_items};
ghost use Rattle.std.specs.Arc.{arc_value};
ghost use Rattle.std.specs.Cmp.{on_equiv, and_equiv, nat_eq_equiv};
ghost use Rattle.std.specs.Cmp.Lexicographic.{lists_equiv};
ghost use Rattle.std.specs.FinMap as map;
ghost use Rattle.dhcp_wire.specs.Error.{no_memory};
ghost use Rattle.dhcp_wire.specs.Outcome.{Makes, Emits};
ghost use Rattle.dhcp4_msg.specs.contracts.option.DhcpV4OptionPartialEq.TheImpl.Laws as option_per;
ghost use Rattle.dhcp4_msg.specs.contracts.option.DhcpV4OptionEq.TheImpl.Laws as option_equiv;
ghost use Rattle.dhcp4_msg.specs.Laws.{AllStand};
ghost use Rattle.dhcp4_msg.specs.OptionCode.{number_of};
ghost use Rattle.dhcp4_msg.specs.Value.{
  address_said,
  addresses_said,
  bytes_said,
  codes_said,
  fits,
  IsKeptAs,
  option_number,
  seconds_said,
  size_said,
  text_said,
  written_option,
};
ghost use Rattle.dhcp4_msg.specs.Options.{
  classless_routes,
  read_options,
  said_by,
  same_options,
  same_options_per,
  written_options,
};

use crate::option_table::{END, OptionTable};
use crate::{DhcpV4ClasslessRoute, DhcpV4Option, DhcpV4OptionCode};
use dhcp_wire::{BufferMut, Bytes, DhcpError, Sequence, Text};
use std::alloc::Global;
use std::marker::Model;
use std::net::Ipv4Addr;
use std::sync::Arc;

// The code of the option in which some servers send routes.
const PRIVATE_ROUTES: u8 = 249;

/// The options of a message, RFC 2132. Contracts see it as a finite map from number to option. A
/// copy shares them, until the one or the other is changed.
#[derive(Debug, Drop)]
pub struct DhcpV4Options {
    // Gives the memory for a table.
    alloc: Global,
    // The options. Where there is no table, there are none.
    table: Option<Arc<OptionTable>>,
}

impl Model for DhcpV4Options {
    ghost use Rattle.std.specs.Arc.{arc_value};
    ghost use Rattle.std.specs.Prelude.{option_map, unwrap_or};
    ghost use Rattle.std.specs.FinMap as map;
    ghost use Rattle.dhcp4_msg.specs.Options.{OptionMap};
    ghost use Rattle.std.specs.Coded.{coded_ℕ};
    ghost use Rattle.dhcp4_msg.specs.contracts.option.DhcpV4Option as option;

    ghost Value = { OptionMap };

    ghost coded = { map.code coded_ℕ option.the_row.coded };

    ghost view = { λ options. unwrap_or (option_map arc_value options.table) map.empty };
}

impl PartialEq for DhcpV4Options {
    ghost eq = { same_options ⟦<DhcpV4Option as PartialEq>⟧.eq };

    ghost laws = { same_options_per option_per.laws-law };

    fn eq(&self, other: &Self) -> bool {
        match (&self.table, &other.table) {
            (Some(mine), Some(theirs)) => mine == theirs,
            (Some(mine), None) => **mine == OptionTable::new(self.alloc),
            (None, Some(theirs)) => OptionTable::new(self.alloc) == **theirs,
            (None, None) => true,
        }
    }
}

impl Eq for DhcpV4Options {
    ghost laws = { on_equiv map.entries (lists_equiv (and_equiv
        (on_equiv (λ p. p.0) nat_eq_equiv)
        (on_equiv (λ p. p.1) option_equiv.laws-law))) };
}

impl DhcpV4Options {
    /// No options. Does not allocate.
    pub fn new(alloc: Global) -> Self
        ensures { result ≡ map.empty }
    {
        DhcpV4Options { alloc, table: None }
    }

    /// Makes room for so many more options, which spares the growth in steps. Contracts do not see
    /// the room. Out of memory is the only error.
    pub fn reserve(&mut self, additional: usize) -> Result<(), DhcpError>
        ensures same { self.new ≡ self.old }
        ensures error { IfErr result (λ e. e ≡ no_memory) }
    {
        match &mut self.table {
            Some(table) => Arc::make_mut(table)?.reserve(additional),
            None => {
                let table = OptionTable::with_capacity(self.alloc, additional)?;
                self.table = Some(Arc::new(self.alloc, table)?);
                Ok(())
            }
        }
    }

    /// The option of that code, if it is kept: it is of that code, and can be written.
    #[tactic(auto, unfolding(crate::specs::OptionCode::number_of))]
    pub fn get(&self, code: DhcpV4OptionCode) -> Option<&DhcpV4Option>
        ensures value { option_copied result ≡ map.get self.now (number_of code) }
        ensures kept { IfSome result (λ option. IsKeptAs code option.now) }
    {
        self.kept_at(u8::from(code))
    }

    /// The address that the option of this code says: of codes 1, 28, 50 and 54.
    pub fn address(&self, code: DhcpV4OptionCode) -> Option<Ipv4Addr>
        ensures { result ≡ said_by address_said self.now (number_of code) }
    {
        self.get(code)?.address()
    }

    /// The addresses that the option of this code says: of codes 3, 6 and 42.
    pub fn addresses(&self, code: DhcpV4OptionCode) -> Option<&Sequence<Ipv4Addr>>
        ensures { option_copied result ≡ said_by addresses_said self.now (number_of code) }
    {
        self.get(code)?.addresses()
    }

    /// The text that the option of this code says: of codes 12, 15 and 56.
    pub fn text(&self, code: DhcpV4OptionCode) -> Option<&Text>
        ensures { option_copied result ≡ said_by text_said self.now (number_of code) }
    {
        self.get(code)?.text()
    }

    /// The size in bytes that the option of this code says: of code 26.
    pub fn size(&self, code: DhcpV4OptionCode) -> Option<u16>
        ensures { result ≡ said_by size_said self.now (number_of code) }
    {
        self.get(code)?.size()
    }

    /// The time in seconds that the option of this code says: of codes 51, 58 and 59.
    pub fn seconds(&self, code: DhcpV4OptionCode) -> Option<u32>
        ensures { result ≡ said_by seconds_said self.now (number_of code) }
    {
        self.get(code)?.seconds()
    }

    /// The bytes that the option of this code says: of code 61, or of a number without a name.
    pub fn bytes(&self, code: DhcpV4OptionCode) -> Option<&Bytes>
        ensures { option_copied result ≡ said_by bytes_said self.now (number_of code) }
    {
        self.get(code)?.bytes()
    }

    /// The codes that option 55 requests, RFC 2132 section 9.8.
    #[tactic(auto, unfolding(crate::specs::OptionCode::number_of))]
    pub fn requested_codes(&self) -> Option<&Sequence<DhcpV4OptionCode>>
        ensures { option_copied result ≡ said_by codes_said self.now 55 }
    {
        self.get(DhcpV4OptionCode::ParameterRequestList)?
            .requested_codes()
    }

    /// A copy of the routes of option 121, RFC 3442; where it is absent the routes that fill the
    /// value of option 249 exactly, in which some servers send them. Out of memory is the only
    /// error.
    #[tactic(auto, unfolding(crate::specs::classless_routes, crate::specs::number_of))]
    pub fn classless_routes(
        &self,
        alloc: Global,
    ) -> Result<Option<Sequence<DhcpV4ClasslessRoute>>, DhcpError>
        ensures { Makes (λ routes. routes) result (classless_routes self.now) }
    {
        if let Some(option) = self.get(DhcpV4OptionCode::ClasslessStaticRoute) {
            return option.routes(alloc);
        }
        match self.get(DhcpV4OptionCode::Other(PRIVATE_ROUTES)) {
            Some(option) => option.routes(alloc),
            None => Ok(None),
        }
    }

    /// Keeps the option, in place of the one of its code if there is one. Out of memory is the only
    /// error: the option is then dropped, and the others stay as they were.
    #[inline(always)]
    pub fn insert(&mut self, option: DhcpV4Option) -> Result<(), DhcpError>
        requires { IsTrue (fits option) }
        ensures ok { OnOk result (self.new ≡ map.insert self.old (option_number option) option) }
        ensures err { IfErr result (λ e. (e ≡ no_memory) × (self.new ≡ self.old)) }
    {
        match &mut self.table {
            Some(table) => match Arc::make_mut(table) {
                Ok(table) => table.insert(option),
                Err(error) => {
                    drop(option);
                    Err(DhcpError::from(error))
                }
            },
            None => {
                let mut table = OptionTable::new(self.alloc);
                table.insert(option)?;
                self.table = Some(Arc::new(self.alloc, table)?);
                Ok(())
            }
        }
    }

    /// A copy, which shares the options: none of them is copied. Out of memory is the only error.
    pub fn try_clone(&self, alloc: Global) -> Result<Self, DhcpError>
        ensures { Makes (λ made. made) result self.now }
    {
        let table = match &self.table {
            Some(table) => Some(Arc::try_clone(table)?),
            None => None,
        };
        Ok(DhcpV4Options { alloc, table })
    }

    /// Reads a list of options, RFC 2132 section 2. Of a code that comes more than once the last
    /// option that has a reading is kept, and an option without a reading is skipped. A truncated
    /// option ends the list, and so does End. Out of memory is the only error.
    pub fn parse(alloc: Global, raw: &[u8]) -> Result<Self, DhcpError>
        ensures { Makes (λ options. options) result (read_options raw.now) }
    {
        let table = OptionTable::parse(alloc, raw)?;
        let table = Some(Arc::new(alloc, table)?);
        Ok(DhcpV4Options { alloc, table })
    }

    /// The bytes that the option of this code is written as, if it is kept: its code, the length of
    /// its value, and the value; of Pad and End the code alone. Out of memory is the only error.
    pub fn get_data_raw(&self, alloc: Global, code: u8) -> Result<Option<Vec<u8>>, DhcpError>
        ensures { Makes (option_map vec_items) result
            (option_map written_option (map.get self.now code)) }
    {
        let Some(option) = self.kept_at(code) else {
            return Ok(None);
        };
        let mut buf = BufferMut::new(alloc);
        option.emit(&mut buf)?;
        Ok(Some(buf.into_bytes().into_vec()))
    }

    // The option of that number, if it is kept: it fits.
    fn kept_at(&self, number: u8) -> Option<&DhcpV4Option>
        ensures value { option_copied result ≡ map.get self.now number }
        ensures own { IfSome result (λ option. option_number option.now ≡ number) }
        ensures fit { IfSome result (λ option. IsTrue (fits option.now)) }
    {
        match &self.table {
            Some(table) => table.kept_at(number),
            None => None,
        }
    }

    // How many bytes the options are written in at most, with End.
    pub(crate) fn room(&self) -> usize {
        match &self.table {
            Some(table) => table.room(),
            None => 1,
        }
    }

    // Each option stands under its own number, fits, and has the widths of its type.
    pub(crate) fn stand(&self)
        ensures { AllStand self.now }
    {
        if let Some(table) = &self.table {
            table.stand();
        }
    }

    /// Writes the options by rising code, and End last, which is added if it is not among them. Out
    /// of memory is the only error; some of the bytes are then written.
    pub fn emit(&self, buf: &mut BufferMut) -> Result<(), DhcpError>
        ensures { Emits result buf.old buf.new (written_options self.now) }
    {
        match &self.table {
            Some(table) => table.emit(buf),
            None => buf.write_u8(END),
        }
    }
}
