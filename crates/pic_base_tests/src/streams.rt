//! Tests of the sources and sinks: listed failures, readers and writers that break.

ghost use Rattle.std.specs.Prelude.{◌⊎◌, IsOk, OnErr};
ghost use Rattle.pic_io.specs.Told.{Rose};

use pic_io::{
    Failed, MemSink, MemSource, NeverSink, NeverSource, Sink, Source, StdSink, StdSource,
};
use std::alloc::Global;
use std::io;
use std::io::{Read, Write};
use std::test::Fail;

// Moves one piece from a source to a sink. An error comes only where a count of faults rose.
fn copy_once<S: Source, O: Sink>(source: &mut S, out: &mut O) -> Result<usize, Failed>
    ensures { OnErr result
        (Rose (S.told source.old) (S.told source.new) ⊎ Rose (O.told out.old) (O.told out.new)) }
{
    let mut room = [0u8; 4];
    let count = source.take(&mut room)?;
    out.put(&room[..count])?;
    Ok(count)
}

// So over the types that never fail it answers no error, whatever its body is.
fn copy_without_faults(source: &mut NeverSource, out: &mut NeverSink) -> Result<usize, Failed>
    ensures { IsOk result }
{
    copy_once(source, out)
}

#[test]
fn a_memory_source_fails_at_its_listed_calls(rt: HostRuntime) -> Result<(), Fail> {
    let bytes = Vec::from_slice(rt.alloc(), b"abcdefgh")?;
    let fails = Vec::from_slice(rt.alloc(), &[1, 5])?;
    let mut source = MemSource::new(bytes, 3, fails);
    let cases: [(usize, Result<usize, Failed>, &[u8]); 7] = [
        (5, Ok(3), b"abc.."),
        (5, Err(Failed), b"....."),
        (2, Ok(2), b"de"),
        (0, Ok(0), b""),
        (5, Ok(3), b"fgh.."),
        (1, Err(Failed), b"."),
        (5, Ok(0), b"....."),
    ];
    for (len, want, seen) in cases {
        let mut room = vec![in rt.alloc(); b'.'; len]?;
        assert_eq!(rt; source.take(room.as_mut_slice()), want);
        assert_eq!(rt; room.as_slice(), seen);
    }
    Ok(())
}

#[test]
fn a_memory_sink_fails_where_listed_or_full(rt: HostRuntime) -> Result<(), Fail> {
    let fails = Vec::from_slice(rt.alloc(), &[(1, 2), (1, 0), (3, 9)])?;
    let mut sink = MemSink::new(rt.alloc(), 12, fails)?;
    let cases: [(&[u8], Result<(), Failed>, &[u8]); 7] = [
        (b"abcd", Ok(()), b"abcd"),
        (b"efg", Err(Failed), b"abcdef"),
        (b"gh", Ok(()), b"abcdefgh"),
        (b"ij", Err(Failed), b"abcdefghij"),
        (b"klmn", Err(Failed), b"abcdefghijkl"),
        (b"", Ok(()), b"abcdefghijkl"),
        (b"m", Err(Failed), b"abcdefghijkl"),
    ];
    for (piece, want, held) in cases {
        assert_eq!(rt; sink.put(piece), want);
        assert_eq!(rt; sink.bytes(), held);
    }
    Ok(())
}

#[test]
fn a_piece_is_copied(rt: HostRuntime) -> Result<(), Fail> {
    let bytes = Vec::from_slice(rt.alloc(), b"abcdefgh")?;
    let mut source = MemSource::new(bytes, 8, Vec::from_slice(rt.alloc(), &[1])?);
    let mut sink = MemSink::new(rt.alloc(), 7, Vec::new(rt.alloc()))?;
    let cases: [(Result<usize, Failed>, &[u8]); 4] = [
        (Ok(4), b"abcd"),
        (Err(Failed), b"abcd"),
        (Err(Failed), b"abcdefg"),
        (Ok(0), b"abcdefg"),
    ];
    for (want, held) in cases {
        assert_eq!(rt; copy_once(&mut source, &mut sink), want);
        assert_eq!(rt; sink.bytes(), held);
    }
    Ok(())
}

#[test]
fn a_piece_is_copied_without_faults(rt: HostRuntime) -> Result<(), Fail> {
    let bytes = Vec::from_slice(rt.alloc(), b"abcdef")?;
    let mut source = NeverSource::new(bytes, 3);
    let mut sink = NeverSink::new();
    for want in [3, 3, 0] {
        assert_eq!(rt; copy_without_faults(&mut source, &mut sink), Ok(want));
    }
    assert_eq!(rt; NeverSink::default(), sink);
    Ok(())
}

#[test]
fn a_failure_prints(rt: HostRuntime) -> Result<(), Fail> {
    let text = format!(in rt.alloc(); "{Failed}")?;
    assert_eq!(rt; text.as_str(), "a read or a write failed");
    Ok(())
}

// Gives its text in pieces of 3 bytes, and an error once where its first `cut` bytes are gone.
#[derive(Drop)]
struct BrokenReader<'a> {
    text: &'a [u8],
    at: usize,
    cut: Option<usize>,
}

impl Read for BrokenReader<'_> {
    fn read(&mut self, buf: &mut [u8]) -> io::Result<usize> {
        if self.cut == Some(self.at) {
            self.cut = None;
            return Err(io::Error::from(io::ErrorKind::BrokenPipe));
        }
        let left = self.text.get(self.at..).unwrap_or(b"");
        let count = left.len().min(buf.len()).min(3);
        buf[..count].copy_from_slice(&left[..count]);
        self.at = self.at.saturating_add(count);
        Ok(count)
    }
}

#[test]
fn a_reader_breaks(rt: HostRuntime) {
    let reader = BrokenReader {
        text: b"abcdefgh",
        at: 0,
        cut: Some(6),
    };
    let mut source = StdSource::new(reader);
    let cases: [(Result<usize, Failed>, &[u8]); 5] = [
        (Ok(3), b"abc."),
        (Ok(3), b"def."),
        (Err(Failed), b"...."),
        (Ok(2), b"gh.."),
        (Ok(0), b"...."),
    ];
    for (want, seen) in cases {
        let mut room = *b"....";
        assert_eq!(rt; source.take(&mut room), want);
        assert_eq!(rt; room.as_slice(), seen);
    }
    let mut broken = StdSource::new(BrokenReader {
        text: b"abc",
        at: 0,
        cut: Some(0),
    });
    assert_eq!(rt; broken.take(&mut []), Err(Failed));
}

// What a writer does that holds as many bytes as it is to take: it errs for good or once, takes
// nothing, or fails to flush.
#[derive(Clone, Copy, PartialEq, Eq)]
enum Break {
    Error,
    ErrorOnce,
    Nothing,
    Flush,
}

// Takes at most 3 bytes a write, and breaks where it holds `cut` bytes.
#[derive(Drop)]
struct BrokenWriter {
    held: Vec<u8>,
    cut: usize,
    how: Break,
    flushes: u32,
}

impl Write for BrokenWriter {
    fn write(&mut self, buf: &[u8]) -> io::Result<usize> {
        let left = self.cut.saturating_sub(self.held.len());
        if left == 0 && self.how == Break::ErrorOnce {
            self.cut = usize::MAX;
            return Err(io::Error::from(io::ErrorKind::Interrupted));
        }
        if left == 0 && self.how == Break::Error {
            return Err(io::Error::from(io::ErrorKind::BrokenPipe));
        }
        let count = buf.len().min(left).min(3);
        self.held.extend_from_slice(&buf[..count])?;
        Ok(count)
    }

    fn flush(&mut self) -> io::Result<()> {
        self.flushes = self.flushes.saturating_add(1);
        if self.held.len() == self.cut && self.how == Break::Flush {
            return Err(io::Error::from(io::ErrorKind::BrokenPipe));
        }
        Ok(())
    }
}

// A writer that breaks in this way where it holds 6 bytes.
fn broken_writer(alloc: Global, how: Break) -> BrokenWriter {
    BrokenWriter {
        held: Vec::new(alloc),
        cut: 6,
        how,
        flushes: 0,
    }
}

#[test]
fn a_writer_breaks(rt: HostRuntime) {
    let cases: [(Break, &[u8], Result<(), Failed>, &[u8], u32); 6] = [
        (Break::Error, b"e", Ok(()), b"abcde", 2),
        (Break::Error, b"efgh", Err(Failed), b"abcdef", 1),
        (Break::ErrorOnce, b"efgh", Err(Failed), b"abcdef", 1),
        (Break::Nothing, b"ef", Ok(()), b"abcdef", 2),
        (Break::Nothing, b"efgh", Err(Failed), b"abcdef", 1),
        (Break::Flush, b"ef", Err(Failed), b"abcdef", 2),
    ];
    for (how, piece, want, held, flushes) in cases {
        let mut writer = broken_writer(rt.alloc(), how);
        let mut sink = StdSink::new(&mut writer);
        assert_eq!(rt; sink.put(b"abcd"), Ok(()));
        assert_eq!(rt; sink.put(piece), want);
        assert_eq!(rt; writer.held.as_slice(), held);
        assert_eq!(rt; writer.flushes, flushes);
    }
}
