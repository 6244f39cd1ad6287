//! Tests of the reader: the dump of two charges, whole, in pieces.

ghost use Rattle.std.specs.Prelude.{◌≤◌};

use crate::trial::dump;
use pic_dump::{DumpReader, Next};
use pic_grid::EndMark;
use pic_io::MemSource;
use std::process::Abort;

// Reads a dump of two steps at most to its end: how many frames it has, and how it ends.
fn walk(rt: &(impl AllocGlobal + Abort), source: &mut MemSource) -> (u32, EndMark) {
    let (reader, _header) = DumpReader::head(rt.alloc(), source).expect(rt, "a header");
    let mut state = reader.room(rt.alloc()).expect(rt, "memory");
    let second = match reader.next(source, &mut state).expect(rt, "a record") {
        Next::Frame(behind, _, _) => behind,
        Next::End(mark) => return (0, mark),
    };
    let third = match second.next(source, &mut state).expect(rt, "a record") {
        Next::Frame(behind, _, _) => behind,
        Next::End(mark) => return (1, mark),
    };
    match third.next(source, &mut state).expect(rt, "a record") {
        Next::Frame(_, _, _) => (3, EndMark::Done { steps: 0 }),
        Next::End(mark) => (2, mark),
    }
}

fn walk_bytes(rt: &(impl AllocGlobal + Abort), bytes: &[u8], piece: usize) -> (u32, EndMark)
    requires { 1 ≤ piece }
{
    let bytes = Vec::from_slice(rt.alloc(), bytes).expect(rt, "memory");
    walk(rt, &mut MemSource::new(bytes, piece, Vec::new(rt.alloc())))
}

#[test]
fn pieces_give_one_answer(rt: HostRuntime) {
    let bytes = dump(&rt);
    for piece in [1, 7, 4096] {
        let (frames, mark) = walk_bytes(&rt, &bytes, piece);
        assert!(rt; frames == 2 && mark == EndMark::Done { steps: 1 });
    }
}
