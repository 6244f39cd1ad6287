//! Tests of the verdict: the dump of two charges, whole, cut and changed, and a read that fails.

use crate::decks::same;
use crate::trial::dump;
use pic_io::MemSource;
use pic_verify::verify;
use std::process::Abort;

// The frames of a good dump, or the words of the report, where these calls of the source fail.
fn verdict(rt: &(impl AllocGlobal + Abort), bytes: Vec<u8>, fails: &[u64]) -> String {
    let fails = Vec::from_slice(rt.alloc(), fails).expect(rt, "memory");
    let said = match verify(rt.alloc(), &mut MemSource::new(bytes, 4096, fails)) {
        Ok(frames) => format!(in rt.alloc(); "{frames} frames"),
        Err(stop) => format!(in rt.alloc(); "{stop}"),
    };
    said.expect(rt, "memory")
}

// In frame 1 the electron stands elsewhere.
const MOVED: &str = "broken frame 1 node 0 0 0 div 412316860416 rho 412518187008";

const CHANGED: &str = "broken frame 0 node 0 0 0 div 1 rho 0";

// How many bytes are left of the dump and a byte behind it, one that is changed and what stands there
// then, and the verdict.
struct Case(usize, usize, u8, &'static str);

// The last rows: 65 cells on x; an end where a frame is due; another step; a value of E; the ion's x at
// the end of the box; the kinetic energy; a frame where none is due; a kind of end; the byte behind.
const CASES: [Case; 17] = [
    Case(12680, 0, b'P', "2 frames"),
    Case(12679, 0, b'P', "bad dump 12679 9"),
    Case(12680, 0, 0, "bad dump 0 1"),
    Case(12680, 7, b'0', "bad dump 7 1"),
    Case(12680, 7, b'3', "bad dump 7 1"),
    Case(12680, 204, 1, CHANGED),
    Case(12680, 12605, 1, MOVED),
    Case(12679, 12605, 1, MOVED),
    Case(12680, 11, 65, "bad dump 8 2"),
    Case(12680, 184, b'E', "bad dump 184 3"),
    Case(12680, 188, 1, "bad dump 185 4"),
    Case(12680, 189, 0x7f, "bad dump 189 5"),
    Case(12680, 6335, 0x40, "bad dump 6333 6"),
    Case(12680, 6396, 1, "bad dump 6381 7"),
    Case(12680, 12674, b'F', "bad dump 12674 3"),
    Case(12680, 12675, 3, "bad dump 12675 8"),
    Case(12681, 0, b'P', "bad dump 12680 10"),
];

fn check_case(rt: &(impl AllocGlobal + Abort), bytes: &[u8], case: &Case) {
    let Case(count, at, byte, wanted) = *case;
    let front = bytes.get(..at).expect(rt, "a front");
    let rest = bytes.get(at.wrapping_add(1)..count).expect(rt, "the rest");
    let made = [front, &[byte], rest].concat(rt.alloc());
    let found = verdict(rt, made.expect(rt, "memory"), &[]);
    same(rt, found.as_str(), wanted);
}

#[test]
fn two_charges_are_verified_and_changes_found(rt: HostRuntime) {
    let mut bytes = dump(&rt);
    bytes.push(0).expect(&rt, "memory");
    for case in &CASES {
        check_case(&rt, &bytes, case);
    }
    same(
        &rt,
        verdict(&rt, Vec::new(rt.alloc()), &[0]).as_str(),
        "read fault",
    );
}

fn check_cut(rt: &(impl AllocGlobal + Abort), bytes: &[u8], len: usize) {
    let front = bytes.get(..len).expect(rt, "a front");
    let front = Vec::from_slice(rt.alloc(), front).expect(rt, "memory");
    let wanted = format!(in rt.alloc(); "bad dump {len} 9").expect(rt, "memory");
    same(rt, verdict(rt, front, &[]).as_str(), wanted.as_str());
}

#[test]
fn a_cut_is_found_at_every_length(rt: HostRuntime) {
    let bytes = dump(&rt);
    for len in 0..12680 {
        check_cut(&rt, &bytes, len);
    }
}
