//! The option codes that a client asks for, in both families.

ghost use Rattle.std.specs.Prelude.{◌≡◌, ◌++◌, map};
ghost use Rattle.dhcp_wire.specs.Outcome.{Makes};
ghost use Rattle.dhcp_wire.specs.OptionCodes.{rising, rising_codes};

use crate::{DhcpError, Sequence};
use std::alloc::Global;
use std::collections::BTreeSet;

/// The code of an option, in one of the families.
pub trait OptionCode: Copy {
    /// The number of a code.
    type Number: Copy + Ord;

    /// The code of a number.
    ghost code_of: { Self.Number → Self };

    /// The number of a code.
    ghost number_of: { Self → Self.Number };

    /// The code of a number.
    fn from_number(number: Self::Number) -> Self
        ensures { result ≡ code_of number };

    /// The number of a code.
    fn number(self) -> Self::Number
        ensures { result ≡ number_of self };
}

/// The codes of these numbers. Out of memory is the only error.
pub fn codes_of<C: OptionCode>(
    alloc: Global,
    numbers: &[C::Number],
) -> Result<Sequence<C>, DhcpError>
    ensures { Makes (λ codes. codes) result (map C.code_of numbers.now) }
{
    let mut codes = Vec::with_capacity(alloc, numbers.len())?;
    for number in numbers {
        codes.push(C::from_number(*number))?;
    }
    Ok(Sequence::from(codes))
}

/// The codes of these numbers in rising order, each number once. Out of memory is the only error.
#[tactic(auto, unfolding(crate::specs::OptionCodes::rising_codes))]
pub fn rising_codes<C: OptionCode>(
    alloc: Global,
    numbers: &[C::Number],
) -> Result<Sequence<C>, DhcpError>
    ensures { Makes (λ codes. codes) result (rising_codes C.Number.cmp C.code_of numbers.now) }
{
    let rising = rising(alloc, numbers)?;
    codes_of(alloc, rising.as_slice())
}

/// The codes of the numbers of these codes and of these numbers, in rising order, each number once.
/// Out of memory is the only error.
pub fn rising_codes_with<C: OptionCode>(
    alloc: Global,
    codes: &[C],
    numbers: &[C::Number],
) -> Result<Sequence<C>, DhcpError>
    ensures { Makes (λ codes. codes) result
        (rising_codes C.Number.cmp C.code_of (map C.number_of codes.now ++ numbers.now)) }
{
    let mut all = Vec::with_capacity(alloc, codes.len().saturating_add(numbers.len()))?;
    for code in codes {
        all.push(code.number())?;
    }
    all.extend_from_slice(numbers)?;
    rising_codes(alloc, all.as_slice())
}

// These numbers in rising order, each once.
fn rising<N: Copy + Ord>(alloc: Global, numbers: &[N]) -> Result<Vec<N>, DhcpError>
    ensures { Makes (λ rising. rising.items) result (rising N.cmp numbers.now) }
{
    let mut kept = BTreeSet::new(alloc);
    for number in numbers {
        kept.insert(*number)?;
    }
    Ok(kept.into_iter().collect(alloc)?)
}
