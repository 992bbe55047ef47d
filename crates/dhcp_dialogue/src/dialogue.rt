//! What a program hears and says, in order.

ghost use Rattle.std.specs.Prelude.{◌≡◌, ℕ};
ghost use Rattle.dhcp_wire.specs.Fault.{HasCause};

use dhcp_tool::Status;
use std::alloc::AllocError;

/// How many bytes a line has at most, its line feed included: 16 MiB.
pub const MAX_LINE: usize = 16_777_216;

/// Why no line was heard.
#[derive(Clone, Copy, Debug, PartialEq, Eq)]
pub enum Unheard {
    /// There is no further line. Bytes that no line feed follows are dropped.
    End,
    /// The line has more than `MAX_LINE` bytes.
    TooLong,
    /// The source failed.
    Failed,
    /// Out of memory.
    NoMemory,
}

impl From<AllocError> for Unheard {
    ghost use Rattle.dhcp_dialogue.specs.declared.dialogue.Unheard.TheVariants.{NoMemory};

    ghost from_gives = { λ error seen. seen ≡ NoMemory };

    fn from(_error: AllocError) -> Self {
        Unheard::NoMemory
    }
}

impl From<Unheard> for Status {
    ghost use Rattle.dhcp_dialogue.specs.Dialogue.{status_of};

    ghost from_gives = { λ why status. status ≡ status_of why };

    fn from(why: Unheard) -> Self {
        match why {
            Unheard::End => Status::NoScript,
            Unheard::TooLong => Status::TooLong,
            Unheard::Failed => Status::ReadFault,
            Unheard::NoMemory => Status::NoMemory,
        }
    }
}

/// A dialogue, turn by turn.
pub trait Dialogue {
    ghost use Rattle.std.specs.Prelude.{◌≤◌, IfErr, OnOk, false, length};
    ghost use Rattle.dhcp_dialogue.specs.Dialogue.{IsLine, Says, Turn, hearing, most_line_bytes};
    ghost use Rattle.dhcp_dialogue.specs.declared.dialogue.Unheard.TheVariants.{Failed};

    /// How often hearing has failed, as far as a u64 counts.
    ghost hear_faults: { Self → ℕ };

    /// How often saying has failed, as far as a u64 counts.
    ghost say_faults: { Self → ℕ };

    /// What it means that the dialogue took this turn, and came from the first value to the second.
    /// A dialogue of which nothing can be said leaves it out.
    ghost moves: { Turn → Self → Self → Type 0 } = { λ _ _ _. Unit {0} };

    /// Hears the next line, with its line feed, in place of what `line` holds; what follows it is
    /// not heard yet. `Failed` only if the count of faults rose. After an error no clause says what
    /// `line` holds, nor where the next line begins: after `TooLong` that may be the rest of this.
    fn hear(&mut self, line: &mut Vec<u8>) -> Result<(), Unheard>
        ensures moved { moves (hearing result line.new.items) self.old self.new }
        ensures line { OnOk result (IsLine line.new.items) }
        ensures long { OnOk result (length line.new.items ≤ most_line_bytes) }
        ensures fault { IfErr result (λ why. HasCause (why ≡ Failed)
            (hear_faults self.old) (hear_faults self.new)) }
        ensures later { hear_faults self.old ≤ hear_faults self.new }
        ensures said { say_faults self.new ≡ say_faults self.old };

    /// Says a text, and returns whether all of it went out: `false` only if the count of faults
    /// rose.
    fn say(&mut self, text: &[u8]) -> bool
        ensures moved { moves (Says text.now result) self.old self.new }
        ensures fault { HasCause (result ≡ false) (say_faults self.old) (say_faults self.new) }
        ensures heard { hear_faults self.new ≡ hear_faults self.old };
}
