//! Decimal numbers, and addresses that are written in them, put at the end of a text. Out of memory
//! is the only error; a part of the digits may then be there.

ghost use Rattle.std.specs.Prelude.{◌≡◌, ◌<◌, ◌++◌, ◌/◌, ◌%◌, OnOk, string_bytes};
ghost use Rattle.std.specs.Fmt.{decimal};
ghost use Rattle.dhcp_stream.specs.Number.{address_text};

use std::alloc::AllocError;
use std::net::Ipv4Addr;

/// Puts a number at the end of a text, without a leading zero.
pub fn push_decimal(text: &mut String, number: u32) -> Result<(), AllocError>
    ensures { OnOk result (string_bytes text.new ≡ string_bytes text.old ++ decimal number) }
{
    if number < 10 {
        return push_digit(text, number);
    }
    if number < 100 {
        return push_two(text, number);
    }
    push_decimal(text, number / 100)?;
    push_two(text, number % 100)
}

// Puts two digits at the end of a text.
fn push_two(text: &mut String, number: u32) -> Result<(), AllocError>
    requires { number < 100 }
    ensures { OnOk result (string_bytes text.new
        ≡ string_bytes text.old ++ (decimal (number / 10) ++ decimal (number % 10))) }
{
    push_digit(text, number / 10)?;
    push_digit(text, number % 10)
}

// Puts a number below ten at the end of a text.
#[tactic(auto, using(std::proofs::lemmas::Fmt::decimal_digit))]
fn push_digit(text: &mut String, number: u32) -> Result<(), AllocError>
    requires { number < 10 }
    ensures { OnOk result (string_bytes text.new ≡ string_bytes text.old ++ decimal number) }
{
    text.push(char::from(b'0' + number as u8))
}

/// Puts an IPv4 address at the end of a text: four numbers with dots between them.
pub fn push_address(text: &mut String, address: Ipv4Addr) -> Result<(), AllocError>
    ensures { OnOk result (string_bytes text.new
        ≡ string_bytes text.old ++ address_text address) }
{
    let [first, second, third, fourth] = address.octets();
    push_decimal(text, u32::from(first))?;
    text.push('.')?;
    push_decimal(text, u32::from(second))?;
    text.push('.')?;
    push_decimal(text, u32::from(third))?;
    text.push('.')?;
    push_decimal(text, u32::from(fourth))
}
