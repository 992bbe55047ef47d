//! Lines of one kind, each after the same word, and what follows the last of them.

ghost use Rattle.std.specs.Prelude.{◌≡◌, ◌<◌, ◌++◌, OnOk, length, string_bytes};
ghost use Rattle.std.specs.List.{flat_map};
ghost use Rattle.dhcp_stream.specs.TextReader.{Takes};
ghost use Rattle.dhcp4_net_play.specs.Lines.{lines_at};

use dhcp_stream::{ReadError, TextReader};
use dhcp_wire::Sequence;
use std::alloc::{AllocError, Global};

/// What a line says after its first word, with the line feed.
pub(crate) trait Line: Drop {
    ghost use Rattle.std.specs.Prelude.{◌≡◌, ◌≤◌, ◌++◌, ℕ, List, OnOk, length, string_bytes};
    ghost use Rattle.dhcp_wire.specs.Field.{Read};
    ghost use Rattle.dhcp_stream.specs.TextReader.{Takes};

    /// It is read so from the front of a text.
    ghost line_at: { List ℕ → Read Self };

    /// Its text.
    ghost line_text: { Self → List ℕ };

    /// Reads it, which adds nothing to the text. `Malformed` only if the text does not go on with
    /// it; out of memory is the only other error.
    fn read(alloc: Global, text: &mut TextReader) -> Result<Self, ReadError>
        ensures takes { Takes result text.new (line_at text.old) }
        ensures no_longer { OnOk result (length text.new ≤ length text.old) };

    /// Puts it at the end of a text. After an error, which is out of memory, a part of it may be
    /// there.
    fn push_to(&self, text: &mut String) -> Result<(), AllocError>
        ensures { OnOk result
            (string_bytes text.new ≡ string_bytes text.old ++ line_text self.now) };
}

/// Reads lines as long as the text goes on with the word `tag`, and then skips `end`. `Malformed`
/// only if the text does not go on so; out of memory is the only other error.
pub(crate) fn read_lines<T: Line>(
    alloc: Global,
    text: &mut TextReader,
    tag: &[u8],
    end: &[u8],
) -> Result<Sequence<T>, ReadError>
    requires { 0 < length tag.now }
    ensures { Takes result text.new (lines_at tag.now T.line_at end.now text.old) }
{
    let mut lines = Vec::new(alloc);
    'lines: while text.skip(tag) {
        lines.push(T::read(alloc, text)?)?;
    }
    text.tag(end)?;
    Ok(Sequence::from(lines))
}

/// Puts lines at the end of a text, each after the word `tag`. After an error, which is out of
/// memory, a part of them may be there.
pub(crate) fn push_lines<T: Line>(
    text: &mut String,
    tag: &str,
    lines: &[T],
) -> Result<(), AllocError>
    ensures { OnOk result (string_bytes text.new
        ≡ string_bytes text.old ++ flat_map (λ line. tag.now ++ T.line_text line) lines.now) }
{
    for line in lines {
        text.push_str(tag)?;
        line.push_to(text)?;
    }
    Ok(())
}
