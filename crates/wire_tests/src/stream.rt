//! Sources and sinks.

ghost use Rattle.std.specs.Prelude.{◌≡◌, IfOk, IfSome};

use dhcp_stream::{
    MemSink, MemSource, ReadOutcome, Sink, Source, StdSink, StdSource, Whole, WriteOutcome,
    read_whole, write_whole,
};
use dhcp_wire::{Bytes, DhcpError, ErrorKind as Kind, FixedText};
use std::alloc::Global;
use std::io::{self, ErrorKind, Read, Write};

// A reader and a writer that give an error, then nothing.
#[derive(Drop)]
struct Broken {
    was_used: bool,
}

impl Broken {
    // An error the first time.
    fn once(&mut self) -> io::Result<usize>
        ensures { IfOk result (λ count. count ≡ 0) }
    {
        if self.was_used {
            return Ok(0);
        }
        self.was_used = true;
        Err(io::Error::from(ErrorKind::Other))
    }
}

impl Read for Broken {
    fn read(&mut self, _buf: &mut [u8]) -> io::Result<usize> {
        self.once()
    }
}

impl Write for Broken {
    fn write(&mut self, _buf: &[u8]) -> io::Result<usize> {
        self.once()
    }

    fn flush(&mut self) -> io::Result<()> {
        self.once()?;
        Ok(())
    }
}

// A source of so many bytes 7.
fn source_of(alloc: Global, len: usize, fails: &[u32]) -> Result<MemSource, DhcpError> {
    let bytes = vec![in alloc; 7u8; len]?;
    Ok(MemSource::new(bytes, fails.to_vec(alloc)?))
}

// The bytes of a source, all of them.
fn all_of<S: Source>(alloc: Global, source: &mut S) -> Result<Bytes, DhcpError> {
    match read_whole(alloc, source)? {
        Whole::All(bytes) => Ok(bytes),
        _ => Err(DhcpError::new_fixed(Kind::Bug, FixedText::Unreadable)),
    }
}

#[test]
fn a_source_is_read_to_its_end(rt: HostRuntime) {
    for len in [0, 1, 8192, 20_000, 16_777_216] {
        let mut source = source_of(rt.alloc(), len, &[]).expect(&rt, "memory");
        let bytes = all_of(rt.alloc(), &mut source).expect(&rt, "reads");
        assert!(rt; bytes.len() == len);
        assert!(rt; bytes.as_slice().iter().all(|byte| *byte == 7));
    }
}

#[test]
fn a_source_is_read_up_to_the_limit(rt: HostRuntime) {
    let mut source = source_of(rt.alloc(), 16_777_218, &[]).expect(&rt, "memory");
    assert!(rt;
        matches!(
            read_whole(rt.alloc(), &mut source).expect(&rt, "memory"),
            Whole::TooLong
        )
    );
    let mut last = [0; 4];
    assert!(rt;
        source.read(&mut last) == ReadOutcome::Read(1),
        "reading stopped"
    );
}

#[test]
fn a_source_fails_at_the_listed_calls(rt: HostRuntime) {
    let mut source = source_of(rt.alloc(), 20_000, &[2]).expect(&rt, "memory");
    assert!(rt;
        matches!(
            read_whole(rt.alloc(), &mut source).expect(&rt, "memory"),
            Whole::Failed
        )
    );
    let mut rest = [0; 16_384];
    assert!(rt; source.read(&mut rest) == ReadOutcome::Read(11_808));
    assert!(rt; source.read(&mut rest) == ReadOutcome::Read(0));
}

#[test]
fn a_sink_takes_bytes_whole_or_a_prefix_of_them(rt: HostRuntime) {
    const CASES: [(usize, u32, bool, usize); 4] = [
        (5, 0, true, 5),
        (4, 0, false, 4),
        (9, 1, false, 0),
        (9, 2, true, 5),
    ];
    for &(room, fail, want, taken) in &CASES {
        let mut sink = MemSink::new(
            rt.alloc(),
            room,
            [fail].to_vec(rt.alloc()).expect(&rt, "memory"),
        )
        .expect(&rt, "memory");
        assert!(rt; write_whole(&mut sink, b"bytes") == want, "{room} {fail}");
        assert!(rt; sink.bytes().len() == taken, "{room} {fail}");
    }
}

// What a slice gives as a reader, all of it, which the contracts alone say.
fn read_from(alloc: Global, bytes: &[u8]) -> Option<Bytes>
    ensures { IfSome result (λ read. read ≡ bytes.now) }
{
    match read_whole(alloc, &mut StdSource::new(bytes)) {
        Ok(Whole::All(read)) => Some(read),
        _ => None,
    }
}

// What a vector holds to which bytes were written whole, which the contracts alone say.
fn written(alloc: Global, bytes: &[u8]) -> Option<Vec<u8>>
    ensures { IfSome result (λ written. written.items ≡ bytes.now) }
{
    let mut sink = StdSink::new(Vec::new(alloc));
    if write_whole(&mut sink, bytes) {
        Some(sink.into_inner())
    } else {
        None
    }
}

#[test]
fn a_reader_of_std_gives_its_bytes(rt: HostRuntime) {
    let read = read_from(rt.alloc(), b"text").expect(&rt, "reads");
    assert!(rt; read.as_slice() == b"text".as_slice());
    let mut source = StdSource::new(io::Cursor::new(b"text".as_slice()));
    let bytes = all_of(rt.alloc(), &mut source).expect(&rt, "reads");
    assert!(rt; bytes.as_slice() == b"text".as_slice());
    let mut cursor = source.into_inner();
    assert!(rt;
        cursor.read(&mut [0; 4]).expect(&rt, "reads") == 0,
        "it is at its end"
    );
}

#[test]
fn a_writer_of_std_takes_the_bytes(rt: HostRuntime) {
    let written = written(rt.alloc(), b"text").expect(&rt, "writes");
    assert!(rt; written.as_slice() == b"text".as_slice());
}

#[test]
fn a_flush_reaches_the_writer(rt: HostRuntime) {
    let mut sink = StdSink::new(Broken { was_used: false });
    assert!(rt; !sink.flush(), "an error");
    assert!(rt; sink.flush());
}

#[test]
fn an_error_of_a_reader_or_a_writer_is_a_fault(rt: HostRuntime) {
    let mut source = StdSource::new(Broken { was_used: false });
    assert!(rt;
        matches!(
            read_whole(rt.alloc(), &mut source).expect(&rt, "memory"),
            Whole::Failed
        )
    );
    assert!(rt; source.read(&mut [0; 4]) == ReadOutcome::Read(0));

    let mut sink = StdSink::new(Broken { was_used: false });
    assert!(rt; !write_whole(&mut sink, b"text"));
    assert!(rt;
        sink.write(b"text") == WriteOutcome::Failed,
        "nothing was taken"
    );
    assert!(rt; sink.write(b"") == WriteOutcome::Wrote(0));
}
