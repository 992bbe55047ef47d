//! The raw options of a list: a code, the length of a value, and the value; RFC 2132 section 2, RFC
//! 8415 section 21.1.

ghost use Rattle.std.specs.Prelude.{◌≡◌, ◌≤◌, IfSome, length, option_map};
ghost use Rattle.dhcp_wire.specs.Field.{number_at};
ghost use Rattle.dhcp_wire.specs.Outcome.{Finds};
ghost use Rattle.dhcp_wire.specs.RawOption as raw;

use std::marker::Model;

/// How the options of a list are laid out.
#[derive(Clone, Copy, Debug, PartialEq, Eq)]
pub enum OptionFormat {
    /// A code and a length of one byte each. Pad (0) and End (255) are a code alone, and End ends
    /// the list. RFC 2132 section 2.
    DhcpV4,
    /// A code and a length of two bytes each, the more significant first. RFC 8415 section 21.1.
    DhcpV6,
}

/// An option as it stands in a list.
#[derive(Clone, Copy, Debug)]
pub struct RawOption<'a> {
    /// Its code: at most 255 in the format of DHCPv4.
    pub code: u16,
    /// The bytes of its value: at most 255 in the format of DHCPv4, 65,535 in that of DHCPv6.
    pub value: &'a [u8],
}

/// The options of a list that are left to read, from the first on.
#[derive(Debug, Drop)]
pub struct RawOptions<'a> {
    format: OptionFormat,
    left: &'a [u8],
}

impl<'a> Model for RawOptions<'a> {
    ghost use Rattle.dhcp_wire.specs.RawOption.{OptionsLeft, raw_options};

    ghost Value = { OptionsLeft };

    ghost view = { λ list.
        record { format = list.format; options = raw_options list.format list.left.now } };
}

impl<'a> RawOptions<'a> {
    /// The options of a list in this format: not more than it has bytes.
    #[tactic(auto, using(crate::proofs::RawOptionLemmas::length_of_options))]
    pub fn new(format: OptionFormat, bytes: &'a [u8]) -> Self
        ensures value { result ≡ record {
          format = format;
          options = raw.raw_options format bytes.now;
        } }
        ensures few { length result.options ≤ length bytes.now }
    {
        RawOptions {
            format,
            left: bytes,
        }
    }

    /// The next option; `None` if and only if none is left: the list is at its end, an option has
    /// ended it, or the next option is truncated. Does not allocate.
    #[tactic(auto, using(crate::proofs::RawOptionLemmas::first_option))]
    pub fn next(&mut self) -> Option<RawOption<'a>>
        ensures first { raw.TakesFirst
            (option_map (λ option. record { code = option.code; value = option.value.now }) result)
            self.old self.new }
        ensures fit { IfSome result (λ option. raw.FitsWidth self.old.format option.code
            × raw.FitsWidth self.old.format (length option.value.now)) }
    {
        let (option, rest) = self.format.raw_option_at(self.left)?;
        self.left = self.format.counted_after(option.code, rest);
        Some(option)
    }
}

impl OptionFormat {
    /// The option at the front, and the bytes after it; `None` if and only if no whole option is
    /// there. Does not allocate.
    #[tactic(auto, unfolding(crate::specs::RawOption::raw_option_at))]
    pub fn raw_option_at(self, bytes: &[u8]) -> Option<(RawOption<'_>, &[u8])>
        ensures found { Finds
            (λ found. (record { code = found.0.code; value = found.0.value.now }, found.1.now))
            result (raw.raw_option_at self bytes.now) }
        ensures fit { IfSome result (λ found. raw.FitsWidth self found.0.code
            × raw.FitsWidth self (length found.0.value.now)) }
    {
        let (code, rest) = self.number_at(bytes)?;
        if self.is_code_alone(code) {
            return Some((RawOption { code, value: &[] }, rest));
        }
        let (value, rest) = self.raw_value_at(rest)?;
        Some((RawOption { code, value }, rest))
    }

    /// The bytes that count after an option of this code: none after one that ends the list.
    pub fn counted_after(self, code: u16, bytes: &[u8]) -> &[u8]
        ensures { result.now ≡ raw.counted_after self code bytes.now }
    {
        match (self, code) {
            (OptionFormat::DhcpV4, 255) => &[],
            _ => bytes,
        }
    }

    // Whether an option of this code is its code alone.
    fn is_code_alone(self, code: u16) -> bool
        ensures { result ≡ raw.is_code_alone self code }
    {
        match self {
            OptionFormat::DhcpV4 => code == 0 || code == 255,
            OptionFormat::DhcpV6 => false,
        }
    }

    // The value whose length is at the front, and the bytes after it.
    #[tactic(auto, unfolding(crate::specs::Field::bytes_at))]
    fn raw_value_at(self, bytes: &[u8]) -> Option<(&[u8], &[u8])>
        ensures found { Finds (λ found. (found.0.now, found.1.now)) result
            (raw.raw_value_at self bytes.now) }
        ensures fit { IfSome result (λ found. raw.FitsWidth self (length found.0.now)) }
    {
        let (len, rest) = self.number_at(bytes)?;
        rest.split_at_checked(usize::from(len))
    }

    // The code or the length at the front, and the bytes after it.
    #[tactic(auto, unfolding(crate::specs::Field::bytes_at))]
    fn number_at(self, bytes: &[u8]) -> Option<(u16, &[u8])>
        ensures found { Finds (λ found. (found.0, found.1.now)) result
            (number_at (raw.width_of self) bytes.now) }
        ensures fit { IfSome result (λ found. raw.FitsWidth self found.0) }
    {
        match (self, bytes) {
            (OptionFormat::DhcpV4, [number, rest @ ..]) => Some((u16::from(*number), rest)),
            (OptionFormat::DhcpV6, [high, low, rest @ ..]) => {
                Some((u16::from_be_bytes([*high, *low]), rest))
            }
            _ => None,
        }
    }
}
