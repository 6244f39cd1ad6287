//! Headers of dumps with driven loops, read and put again.

use crate::reading::same;
use pic_dump::{DumpReader, Header, put_header, upgrade};
use pic_io::{MemSink, MemSource};
use pic_verify::verify;
use std::process::Abort;

// A header up to the number of its loops, 68 bytes: 4 by 3 by 2 cells of a side of 2^12.
const FRONT: &[u8] = b"PICDUMP2\
    \0\0\0\x04\0\0\0\x03\0\0\0\x02\0\0\0\x01\0\0\0\x01\
    \0\0\0\0\0\0\0\0\0\0\0\0\0\0\0\0\0\0\0\x01\0\0\0\x14\0\0\0\0\0\0\0\0\
    \0\0\0\x0c\0\0\0\0";

// Two species, 120 bytes.
const CHARGES: &[u8] = b"\
    ion\0\0\0\0\0\0\0\0\0\0\0\0\0\0\0\0\0\0\0\0\0\0\0\0\0\0\0\0\0\
    \0\0\0\x01\0\0\x07\x2c\0\0\0\0\0\0\0\0\0\0\0\0\0\0\0\0\0\0\0\x01\
    electron\0\0\0\0\0\0\0\0\0\0\0\0\0\0\0\0\0\0\0\0\0\0\0\0\
    \xff\xff\xff\xff\0\0\0\x01\0\0\0\0\0\0\0\0\0\0\0\0\0\0\0\0\0\0\0\x01";

// A loop of a header: its axis, its cell and its length, and its wave.
struct Said([u32; 5], &'static [i64]);

fn push_u32(rt: &impl Abort, bytes: &mut Vec<u8>, number: u32) {
    bytes
        .extend_from_slice(&number.to_be_bytes())
        .expect(rt, "memory");
}

fn push_i64(rt: &impl Abort, bytes: &mut Vec<u8>, number: i64) {
    bytes
        .extend_from_slice(&number.to_be_bytes())
        .expect(rt, "memory");
}

fn push_loop(rt: &impl Abort, bytes: &mut Vec<u8>, said: &Said) {
    for number in &said.0 {
        push_u32(rt, bytes, *number);
    }
    for number in said.1 {
        push_i64(rt, bytes, *number);
    }
}

fn loops_of(rt: &(impl AllocGlobal + Abort), loops: &[Said]) -> Vec<u8> {
    let mut bytes = Vec::new(rt.alloc());
    for said in loops {
        push_loop(rt, &mut bytes, said);
    }
    bytes
}

// A header's numbers of loops and of species, the species, the loops, and what is behind them.
struct Text(u8, u8, Parts, &'static [Said], Parts);

type Parts = &'static [&'static [u8]];

fn concat(rt: &(impl AllocGlobal + Abort), parts: &[&[u8]]) -> Vec<u8> {
    parts.concat(rt.alloc()).expect(rt, "memory")
}

fn bytes_of(rt: &(impl AllocGlobal + Abort), text: &Text) -> Vec<u8> {
    let counts = [0, 0, 0, text.0, 0, 0, 0, text.1];
    let heads = concat(rt, text.2);
    let loops = loops_of(rt, text.3);
    let rest = concat(rt, text.4);
    concat(rt, &[FRONT, &counts, &heads, &loops, &rest])
}

fn source_of(rt: &(impl AllocGlobal + Abort), bytes: &[u8]) -> MemSource {
    let bytes = Vec::from_slice(rt.alloc(), bytes).expect(rt, "memory");
    MemSource::new(bytes, 4096, Vec::new(rt.alloc()))
}

// Whether a header is put as these bytes.
fn is_put_as(rt: &(impl AllocGlobal + Abort), header: &Header, bytes: &[u8]) -> bool {
    let mut out = MemSink::new(rt.alloc(), 9548, Vec::new(rt.alloc())).expect(rt, "memory");
    put_header(&mut out, header).expect(rt, "a put");
    out.bytes() == bytes && header.length() == bytes.len() as u64
}

// Whether it is put as them, and so is its upgrade; and its loops.
fn shown(rt: &(impl AllocGlobal + Abort), header: Header, bytes: &[u8]) -> String {
    let loops = format!(in rt.alloc(); "{:?}", header.loops()).expect(rt, "memory");
    let is_kept = is_put_as(rt, &header, bytes) && is_put_as(rt, &header.upgraded(), bytes);
    format!(in rt.alloc(); "{is_kept} {loops}").expect(rt, "memory")
}

// What a header is read as: its loops, where it is put as the same bytes.
fn reading(rt: &(impl AllocGlobal + Abort), bytes: &[u8]) -> String {
    match DumpReader::head(rt.alloc(), &mut source_of(rt, bytes)) {
        Ok((_reader, header)) => shown(rt, header, bytes),
        Err(stop) => format!(in rt.alloc(); "{stop}").expect(rt, "memory"),
    }
}

const MOST: i64 = 1 << 60;

// One of sixteen species behind its name's letter.
const HEAD: &[u8] = b"\0\0\0\0\0\0\0\0\0\0\0\0\0\0\0\0\0\0\0\0\0\0\0\0\0\0\0\0\0\0\0\
    \0\0\0\x07\0\0\0\x01\0\0\0\0\0\0\0\0\0\0\0\0\0\0\0\0\0\0\0\x04";

const HEADS: &[&[u8]] = &[
    b"a", HEAD, b"b", HEAD, b"c", HEAD, b"d", HEAD, b"e", HEAD, b"f", HEAD, b"g", HEAD, b"h", HEAD,
    b"i", HEAD, b"j", HEAD, b"k", HEAD, b"l", HEAD, b"m", HEAD, b"n", HEAD, b"o", HEAD, b"p", HEAD,
];

const WAVE: &[i64] = &[-MOST; 64];

const LONGEST: &[Said] = &[
    Said([2, 3, 2, 1, 64], WAVE),
    Said([2, 3, 2, 1, 64], WAVE),
    Said([2, 3, 2, 1, 64], WAVE),
    Said([2, 3, 2, 1, 64], WAVE),
    Said([2, 3, 2, 1, 64], WAVE),
    Said([2, 3, 2, 1, 64], WAVE),
    Said([2, 3, 2, 1, 64], WAVE),
    Said([2, 3, 2, 1, 64], WAVE),
    Said([2, 3, 2, 1, 64], WAVE),
    Said([2, 3, 2, 1, 64], WAVE),
    Said([2, 3, 2, 1, 64], WAVE),
    Said([2, 3, 2, 1, 64], WAVE),
    Said([2, 3, 2, 1, 64], WAVE),
    Said([2, 3, 2, 1, 64], WAVE),
    Said([2, 3, 2, 1, 64], WAVE),
    Said([2, 3, 2, 1, 64], WAVE),
];

struct Case(Text, &'static str);

// A loop stands from byte 76 on, behind two species from 196. The first rows are read, the last of them
// in its order; then each number is beyond its limit, and two charges' header says so many loops, and the
// first bytes of a frame stand behind it.
const CASES: [Case; 16] = [
    Case(
        Text(1, 0, &[], &[Said([0, 0, 0, 0, 1], &[0])], &[]),
        "true Listed { items: [Loop { axis: X, cell: [0, 0, 0], wave: Listed { items: [0] } }] }",
    ),
    Case(
        Text(1, 0, &[], &[Said([2, 3, 2, 1, 1], &[MOST])], &[]),
        "true Listed { items: [Loop { axis: Z, cell: [3, 2, 1], wave: Listed { items: [1152921504606846976] } }] }",
    ),
    Case(
        Text(1, 0, &[], &[Said([1, 1, 0, 1, 3], &[-MOST, -1, MOST])], &[]),
        "true Listed { items: [Loop { axis: Y, cell: [1, 0, 1], wave: Listed { items: [-1152921504606846976, -1, 1152921504606846976] } }] }",
    ),
    Case(
        Text(
            2,
            0,
            &[],
            &[Said([1, 3, 2, 0, 2], &[8, -8]), Said([2, 0, 1, 1, 1], &[5])],
            &[],
        ),
        "true Listed { items: [Loop { axis: Y, cell: [3, 2, 0], wave: Listed { items: [8, -8] } }, Loop { axis: Z, cell: [0, 1, 1], wave: Listed { items: [5] } }] }",
    ),
    Case(
        Text(1, 0, &[], &[Said([3, 0, 0, 0, 1], &[0])], &[]),
        "bad dump 76 2",
    ),
    Case(
        Text(1, 0, &[], &[Said([0, 4, 0, 0, 1], &[0])], &[]),
        "bad dump 80 2",
    ),
    Case(
        Text(1, 0, &[], &[Said([0, 0, 3, 0, 1], &[0])], &[]),
        "bad dump 84 2",
    ),
    Case(
        Text(1, 0, &[], &[Said([0, 0, 0, 2, 1], &[0])], &[]),
        "bad dump 88 2",
    ),
    Case(
        Text(1, 0, &[], &[Said([0, 0, 0, 0, 0], &[])], &[]),
        "bad dump 92 2",
    ),
    Case(
        Text(1, 0, &[], &[Said([0, 0, 0, 0, 65], &[0])], &[]),
        "bad dump 92 2",
    ),
    Case(
        Text(1, 0, &[], &[Said([0, 0, 0, 0, 1], &[MOST + 1])], &[]),
        "bad dump 96 2",
    ),
    Case(
        Text(1, 0, &[], &[Said([0, 0, 0, 0, 2], &[0, -MOST - 1])], &[]),
        "bad dump 104 2",
    ),
    Case(
        Text(1, 0, &[], &[Said([0, 0, 0, 0, 64], &[0])], &[]),
        "bad dump 104 9",
    ),
    Case(
        Text(1, 0, &[], &[Said([0xffff_ffff, 0, 0, 0, 1], &[0])], &[]),
        "bad dump 76 2",
    ),
    Case(
        Text(1, 2, &[CHARGES], &[], &[b"F\0\0\0\0"]),
        "bad dump 196 2",
    ),
    Case(
        Text(17, 2, &[CHARGES], &[], &[b"F\0\0\0\0"]),
        "bad dump 68 2",
    ),
];

fn check_case(rt: &(impl AllocGlobal + Abort), case: &Case) {
    let bytes = bytes_of(rt, &case.0);
    same(rt, reading(rt, &bytes).as_str(), case.1);
}

const LONGEST_HEADER: Text = Text(16, 16, HEADS, LONGEST, &[]);

#[test]
fn each_number_of_a_loop_has_its_limits(rt: HostRuntime) {
    for case in &CASES {
        check_case(&rt, case);
    }
    let longest = bytes_of(&rt, &LONGEST_HEADER);
    assert!(rt; longest.len() == 9548);
    assert!(rt; reading(&rt, &longest).as_str().starts_with("true "));
}

// A frame of zeros behind its step: 72 values of E and of B, and three energies.
const ZEROS: &[u8] = &[0; 2352];

const DUMP: Text = Text(
    1,
    0,
    &[],
    &[Said([2, 3, 0, 1, 2], &[8, -8])],
    &[b"F\0\0\0\0", ZEROS, b"F\0\0\0\x01", ZEROS, b"E\0\0\0\0\x01"],
);

// A dump of version 2 is its own upgrade.
#[test]
fn a_dump_with_loops_is_verified_and_upgraded(rt: HostRuntime) {
    let bytes = bytes_of(&rt, &DUMP);
    let mut out = MemSink::new(rt.alloc(), 5000, Vec::new(rt.alloc())).expect(&rt, "memory");
    let verified = verify(rt.alloc(), &mut source_of(&rt, &bytes));
    let upgraded = upgrade(rt.alloc(), &mut source_of(&rt, &bytes), &mut out);
    assert!(rt; verified == Ok(2) && upgraded == Ok(2) && out.bytes() == bytes.as_slice());
}
