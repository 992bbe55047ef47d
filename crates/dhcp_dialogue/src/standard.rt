//! A dialogue over a reader and a writer of std, such as standard input and output.

ghost use Rattle.std.specs.Prelude.{◌≡◌, ◌<◌, ◌≤◌, ℕ, List, [], IfErr, IfOk, OnErr, OnOk, length};
ghost use Rattle.std.specs.Io.KnownBytes.{Keeps};
ghost use Rattle.dhcp_wire.specs.Fault.{HasCause};
ghost use Rattle.dhcp_wire.specs.Outcome.{Makes};
ghost use Rattle.dhcp_dialogue.specs.Dialogue.{most_line_bytes};
ghost use Rattle.dhcp_dialogue.specs.Standard.{IsWhy, MovesLine, piece_bytes, to_hear};
ghost use Rattle.dhcp_dialogue.specs.declared.dialogue.Unheard.TheVariants.{Failed, TooLong};

use crate::{Dialogue, MAX_LINE, Unheard};
use dhcp_stream::{ReadOutcome, Source, StdSink, StdSource, cut_field, write_whole};
use dhcp_wire::DhcpError;
use std::alloc::{AllocError, Global};
use std::io::{Read, Write};
use std::marker::Model;

// How many bytes one read asks for.
const PIECE: usize = 8_192;

/// A dialogue over a reader and a writer. Contracts see the bytes that were read and not heard yet,
/// and the reader and the writer as a source and a sink. Where std knows the bytes of these, which
/// it does not of standard input and output, a line that is heard is the front of those that were
/// still to be heard, and a text that is said is added to those that the writer holds.
#[derive(Drop)]
pub struct StdDialogue<R: Read + Drop, W: Write + Drop> {
    source: StdSource<R>,
    sink: StdSink<W>,
    piece: Vec<u8>,
    start: usize,
    end: usize,
}

impl<R: Read + Drop, W: Write + Drop> Model for StdDialogue<R, W> {
    ghost use Rattle.std.specs.Prelude.{◌≡◌, ◌-◌, ◌≤◌, drop, take, vec_len};
    ghost use Rattle.dhcp_dialogue.specs.Standard.{StdDialogueView, piece_bytes};

    ghost Value = { StdDialogueView };

    ghost view = { λ dialogue. record {
      ahead = take (dialogue.end - dialogue.start) (drop dialogue.start dialogue.piece.items);
      source = dialogue.source;
      sink = dialogue.sink;
    } };

    ghost invariant = { λ dialogue. (dialogue.start ≤ dialogue.end)
        × ((dialogue.end ≤ vec_len dialogue.piece) × (vec_len dialogue.piece ≡ piece_bytes)) };
}

impl<R: Read + Drop, W: Write + Drop> StdDialogue<R, W> {
    /// A dialogue of which nothing was heard or said yet. Out of memory is the only error.
    pub fn new(alloc: Global, reader: R, writer: W) -> Result<Self, DhcpError>
        ensures { Makes (λ dialogue. dialogue) result (record {
          ahead = [];
          source = record { remaining = R.remaining reader; faults = 0 };
          sink = record { contents = W.contents writer; faults = 0 };
        }) }
    {
        Ok(StdDialogue {
            source: StdSource::new(reader),
            sink: StdSink::new(writer),
            piece: vec![in alloc; 0u8; PIECE]?,
            start: 0,
            end: 0,
        })
    }

    /// The reader and the writer. Bytes that were read and not heard are dropped.
    pub fn into_inner(self) -> (R, W)
        ensures reader { R.remaining result.0 ≡ self.source.remaining }
        ensures writer { W.contents result.1 ≡ self.sink.contents }
    {
        let StdDialogue { source, sink, .. } = self;
        (source.into_inner(), sink.into_inner())
    }

    // Moves what was read to the end of a line, up to and with the first line feed, and returns
    // whether there was one. Out of memory nothing is moved.
    fn move_line(&mut self, line: &mut Vec<u8>) -> Result<bool, AllocError>
        ensures moved { IfOk result (λ whole. MovesLine whole self.old.ahead self.new.ahead
            line.old.items line.new.items) }
        ensures kept { OnErr result (self.new.ahead ≡ self.old.ahead) }
        ensures source { self.new.source ≡ self.old.source }
        ensures sink { self.new.sink ≡ self.old.sink }
    {
        let ahead = &self.piece[self.start..self.end];
        match cut_field(ahead, b'\n') {
            Some((before, _)) => {
                let len = before.len() + 1;
                line.extend_from_slice(&ahead[..len])?;
                self.start += len;
                Ok(true)
            }
            None => {
                line.extend_from_slice(ahead)?;
                self.start = self.end;
                Ok(false)
            }
        }
    }

    // Reads some bytes, if all that was read is heard. `End` and `Failed` are the only errors.
    fn read_ahead(&mut self) -> Result<(), Unheard>
        ensures some { OnOk result (0 < length self.new.ahead) }
        ensures few { OnOk result (length self.new.ahead ≤ piece_bytes) }
        ensures bytes { Keeps (to_hear self.old) (to_hear self.new) }
        ensures why { IfErr result (λ why. (gone : List ℕ) →
            length gone ≤ most_line_bytes → IsWhy why gone (to_hear self.new)) }
        ensures fault { IfErr result (λ why. HasCause (why ≡ Failed)
            self.old.source.faults self.new.source.faults) }
        ensures later { self.old.source.faults ≤ self.new.source.faults }
        ensures sink { self.new.sink ≡ self.old.sink }
    {
        if self.start < self.end {
            return Ok(());
        }
        match self.source.read(self.piece.as_mut_slice()) {
            ReadOutcome::Read(0) => Err(Unheard::End),
            ReadOutcome::Read(count) => {
                self.start = 0;
                self.end = count;
                Ok(())
            }
            ReadOutcome::Failed => Err(Unheard::Failed),
        }
    }
}

impl<R: Read + Drop, W: Write + Drop> Dialogue for StdDialogue<R, W> {
    ghost use Rattle.dhcp_dialogue.specs.Standard.{MovesBytes};

    ghost hear_faults = { λ dialogue. dialogue.source.faults };

    ghost say_faults = { λ dialogue. dialogue.sink.faults };

    ghost moves = { MovesBytes };

    fn hear(&mut self, line: &mut Vec<u8>) -> Result<(), Unheard> {
        line.clear();
        'pieces: while line.len() <= MAX_LINE {
            self.read_ahead()?;
            if self.move_line(line)? {
                return check_length(line.as_slice());
            }
        }
        Err(Unheard::TooLong)
    }

    fn say(&mut self, text: &[u8]) -> bool {
        write_whole(&mut self.sink, text) && self.sink.flush()
    }
}

// `TooLong` if and only if a line has more than `MAX_LINE` bytes; there is no other error.
fn check_length(line: &[u8]) -> Result<(), Unheard>
    ensures short { OnOk result (length line.now ≤ most_line_bytes) }
    ensures error { IfErr result (λ why. (why ≡ TooLong) × (most_line_bytes < length line.now)) }
{
    if line.len() > MAX_LINE {
        return Err(Unheard::TooLong);
    }
    Ok(())
}
