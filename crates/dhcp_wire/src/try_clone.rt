//! Copies that may run out of memory.

ghost use Rattle.std.specs.Prelude.{option_copied};
ghost use Rattle.dhcp_wire.specs.Outcome.{Makes};

use crate::{DhcpError, Sequence};
use std::alloc::Global;

/// A value that can be copied, such as an item of a [`Sequence`](crate::Sequence).
pub trait TryClone: Drop {
    /// A copy, which is equal; out of memory is the only error.
    fn try_clone(&self, alloc: Global) -> Result<Self, DhcpError>
        ensures { Makes (λ made. made) result self.now };
}

/// A copy of a value, if there is one; out of memory is the only error.
pub fn copied<T: TryClone>(alloc: Global, kept: Option<&T>) -> Result<Option<T>, DhcpError>
    ensures { Makes (λ made. made) result (option_copied kept.entry) }
{
    match kept {
        Some(value) => Ok(Some(value.try_clone(alloc)?)),
        None => Ok(None),
    }
}

/// A copy of a list of `Copy` items, if there is one; out of memory is the only error.
pub fn copied_list<T: Copy>(
    alloc: Global,
    kept: Option<&Sequence<T>>,
) -> Result<Option<Sequence<T>>, DhcpError>
    ensures { Makes (λ made. made) result (option_copied kept.entry) }
{
    match kept {
        Some(list) => Ok(Some(Sequence::<T>::try_clone(list, alloc)?)),
        None => Ok(None),
    }
}
