//! A state as a client reports it.

ghost use Rattle.std.specs.Prelude.{◌≡◌};

use std::marker::Model;

/// A type of which contracts compare the contents, wherever a value keeps them. An enum can have no
/// `Model` of its own.
pub trait Plain: Drop {
    /// The contents.
    type Contents;

    /// The contents of a value.
    ghost contents: { Self → Self.Contents };
}

/// A state as it is reported. Contracts see its contents.
#[derive(Drop)]
pub struct StateReport<S: Plain> {
    state: S,
}

impl<S: Plain> Model for StateReport<S> {
    ghost Value = { S.Contents };

    ghost view = { λ reported. S.contents reported.state };
}

impl<S: Plain> StateReport<S> {
    /// Reports this state.
    pub fn new(state: S) -> Self
        ensures { result ≡ S.contents state }
    {
        StateReport { state }
    }

    /// The state.
    pub fn into_state(self) -> S
        ensures { S.contents result ≡ self }
    {
        self.state
    }
}
