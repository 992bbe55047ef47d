//! A law of the definitions. A call does nothing.

ghost use Rattle.std.specs.Prelude.{◌≡◌};
ghost use Rattle.dhcp_stream.specs.Whole.{most_bytes};

use crate::MAX_INPUT;

/// The constant for the most bytes of a source that is read whole is the number of the definition.
pub fn input_constant()
    ensures { MAX_INPUT ≡ most_bytes }
{}
