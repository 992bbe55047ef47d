//! What a caller owns where a call may fail.

ghost use Rattle.std.specs.Prelude.{◌≡◌, ◌⊎◌, Err, IfErr, IfOk, Ok};
ghost use Rattle.dhcp_wire.specs.Outcome.{IsBoxError};

use crate::DhcpError;
use std::alloc::Global;

/// A value that is kept, and what was made beside it; the error if nothing was made, and then the
/// value is dropped. A `?` is proved for each field that the caller owns there; here the value is
/// of a type parameter.
#[inline(always)]
pub fn beside<A: Drop, B>(kept: A, made: Result<B, DhcpError>) -> Result<(A, B), DhcpError>
    ensures ok { IfOk result (λ both. (both.0 ≡ kept) × (made ≡ Ok both.1)) }
    ensures err { IfErr result (λ error. made ≡ Err error) }
{
    match made {
        Ok(made) => Ok((kept, made)),
        Err(error) => Err(error),
    }
}

/// Both values, if both were made; else the error of the first that was not, and what was made is
/// dropped. The caller owns neither value at a `?`.
#[inline(always)]
pub fn both<A: Drop, B: Drop>(
    first: Result<A, DhcpError>,
    second: Result<B, DhcpError>,
) -> Result<(A, B), DhcpError>
    ensures ok { IfOk result (λ made. (first ≡ Ok made.0) × (second ≡ Ok made.1)) }
    ensures err { IfErr result (λ error. (first ≡ Err error) ⊎ (second ≡ Err error)) }
    ensures first { IfErr first (λ error. result ≡ Err error) }
{
    match first {
        Ok(first) => beside(first, second),
        Err(error) => Err(error),
    }
}

/// What was made, in a box of its own, so that the caller does not own its parts; the error if
/// nothing was made; or out of memory.
pub fn boxed<T: Drop>(alloc: Global, made: Result<T, DhcpError>) -> Result<Box<T>, DhcpError>
    ensures ok { IfOk result (λ boxed. made ≡ Ok boxed.value) }
    ensures error { IfErr result (IsBoxError made) }
{
    Ok(Box::new(alloc, made?)?)
}
