//! What the setters that may refuse share, so that calls of them can be chained: a step that
//! changes the value and returns its reference, and the setter, which returns what the step
//! returned.

ghost use Rattle.std.specs.Prelude.{◌≡◌};
ghost use Rattle.dhcp_wire.specs.Setter.{setter_answer};

use crate::error::DhcpError;

/// The value that a step returns to its setter.
#[derive(Drop)]
pub struct SetterStep<'a, T> {
    /// The reference that the setter was given.
    pub value: &'a mut T,
}

/// What a setter returns where its step has returned this.
pub fn setter_answer<'a, T>(
    step: Result<SetterStep<'a, T>, DhcpError>,
) -> Result<&'a mut T, DhcpError>
    ensures { result ≡ setter_answer step.entry }
{
    Ok(step?.value)
}
