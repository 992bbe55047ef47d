//! The program, over a source and a sink in memory.

use dhcp_dialogue::StdDialogue;
use dhcp_live::live_tool;
use dhcp_replay::replay_tool;
use dhcp_stream::{MemSink, MemSource};
use dhcp_wire::DhcpError;
use std::alloc::{AllocError, Global};
use std::io::{self, Cursor, ErrorKind, Read, Write};

// The exit status of a run that is out of memory.
const NO_MEMORY: u8 = 5;

// How many bytes the sink takes.
const ROOM: usize = 65_536;

/// How a run ended.
#[derive(Drop)]
pub struct Ended {
    /// The exit status.
    pub status: u8,
    /// What the sink took.
    pub text: Vec<u8>,
}

impl Ended {
    // A run that ended with this status and these bytes in its sink.
    fn new(alloc: Global, status: u8, taken: &[u8]) -> Result<Self, DhcpError> {
        if status == NO_MEMORY {
            return Err(DhcpError::from(AllocError));
        }
        let text = taken.to_vec(alloc)?;
        Ok(Ended { status, text })
    }

    /// Whether it ended with this status and text.
    pub fn is(&self, status: u8, text: &str) -> bool {
        self.status == status && self.text.as_slice() == text.as_bytes()
    }

    /// Whether it ended with this status and nothing written.
    pub fn is_empty(&self, status: u8) -> bool {
        self.is(status, "")
    }
}

/// The calls of a run that fail, by their numbers; no call has the number 0.
#[derive(Clone, Copy, Debug)]
pub struct Faults {
    /// The read that fails.
    pub read: u32,
    /// The write that fails.
    pub write: u32,
}

/// A run with these words over a source of these bytes. A run that is out of memory is an error, as
/// any other call that is.
pub fn run(alloc: Global, words: &[&str], input: &[u8]) -> Result<Ended, DhcpError> {
    let none = Faults { read: 0, write: 0 };
    run_with_faults(alloc, words, input, none)
}

/// The same, with calls that fail.
pub fn run_with_faults(
    alloc: Global,
    words: &[&str],
    input: &[u8],
    faults: Faults,
) -> Result<Ended, DhcpError> {
    let words = owned(alloc, words)?;
    let input = input.to_vec(alloc)?;
    let mut source = MemSource::new(input, vec![in alloc; faults.read]?);
    let mut sink = MemSink::new(alloc, ROOM, vec![in alloc; faults.write]?)?;
    let status = replay_tool(alloc, words.as_slice(), &mut source, &mut sink);
    Ended::new(alloc, status, sink.bytes())
}

/// A session over these bytes, which are heard line by line.
pub fn live(alloc: Global, input: &[u8]) -> Result<Ended, DhcpError> {
    let mut said = Vec::with_capacity(alloc, ROOM)?;
    let status = hold(alloc, Cursor::new(input), &mut said)?;
    Ended::new(alloc, status, said.as_slice())
}

/// The status of a session over a reader and a writer.
pub fn hold<R: Read + Drop, W: Write + Drop>(
    alloc: Global,
    reader: R,
    writer: W,
) -> Result<u8, DhcpError> {
    let mut dialogue = StdDialogue::new(alloc, reader, writer)?;
    Ok(live_tool(alloc, &mut dialogue))
}

/// A reader and a writer of which every call fails.
#[derive(Drop)]
pub struct Broken;

impl Read for Broken {
    fn read(&mut self, _buf: &mut [u8]) -> io::Result<usize> {
        Err(io::Error::from(ErrorKind::Other))
    }
}

impl Write for Broken {
    fn write(&mut self, _buf: &[u8]) -> io::Result<usize> {
        Err(io::Error::from(ErrorKind::Other))
    }

    fn flush(&mut self) -> io::Result<()> {
        Ok(())
    }
}

// The words as the program is given them.
fn owned(alloc: Global, words: &[&str]) -> Result<Vec<String>, AllocError> {
    let mut owned = Vec::new(alloc);
    for word in words {
        owned.push(String::from_str(alloc, word)?)?;
    }
    Ok(owned)
}
