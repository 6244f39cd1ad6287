//! A call over memory.

use crate::decks::Pieces;
use pic_gate::Gate;
use pic_io::{MemSink, MemSource};
use pic_num::NoMemory;
use pic_run::pic;
use std::alloc::Global;
use std::thread::Threads;

/// The takes and puts of a call that fail, counted from 0; and how many bytes such a put still
/// takes.
#[derive(Clone, Copy)]
pub struct Faults {
    pub take: u64,
    pub out: (u64, usize),
    pub report: (u64, usize),
}

/// The number of a take or put that never comes.
pub const NEVER: u64 = 1000000;

pub const CALM: Faults = Faults {
    take: NEVER,
    out: (NEVER, 0),
    report: (NEVER, 0),
};

/// How many bytes a take gives at most, and how many `out` has room for.
#[derive(Clone, Copy)]
pub struct Sizes {
    pub piece: usize,
    pub room: usize,
}

/// Room for six frames of the two charges.
pub const SMALL: Sizes = Sizes {
    piece: 100,
    room: 40000,
};

/// A call's status, and what stands on out and on report after it.
#[derive(Drop)]
pub struct Left {
    pub status: u8,
    pub out: MemSink,
    pub report: MemSink,
}

/// The number of so many bytes at this place: one of 16 bytes has a sign.
pub fn number_at(bytes: &[u8], place: usize, len: usize) -> Option<i128> {
    let mut number: i128 = 0;
    for byte in bytes.get(place..)?.get(..len)? {
        number = number.wrapping_mul(256).wrapping_add(i128::from(*byte));
    }
    Some(number)
}

/// The words of a call.
pub fn owned(alloc: Global, words: &[&str]) -> Result<Vec<String>, NoMemory> {
    let mut all = Vec::new(alloc);
    for word in words {
        all.push(word.to_string(alloc)?)?;
    }
    Ok(all)
}

fn source_of(
    alloc: Global,
    held: Pieces<'_>,
    piece: usize,
    fault: u64,
) -> Result<MemSource, NoMemory> {
    let bytes = held.concat(alloc)?;
    let faults = Vec::from_slice(alloc, &[fault])?;
    Ok(MemSource::new(bytes, piece.max(1), faults))
}

fn sink_of(alloc: Global, room: usize, fault: (u64, usize)) -> Result<MemSink, NoMemory> {
    let faults = Vec::from_slice(alloc, &[fault])?;
    MemSink::new(alloc, room, faults)
}

/// A call of the words on a deck or a dump, at a gate.
pub fn try_call<H: AllocGlobal + Threads + Sync, G: Gate + Sync>(
    rt: &H,
    words: &[&str],
    held: Pieces<'_>,
    sizes: Sizes,
    faults: Faults,
    gate: &G,
) -> Result<Left, NoMemory> {
    let alloc = rt.alloc();
    let words = owned(alloc, words)?;
    let mut source = source_of(alloc, held, sizes.piece, faults.take)?;
    let mut out = sink_of(alloc, sizes.room, faults.out)?;
    let mut report = sink_of(alloc, 1000, faults.report)?;
    let ended = pic(rt, alloc, &words, &mut source, &mut out, &mut report, gate);
    Ok(Left {
        status: ended.status(),
        out,
        report,
    })
}
