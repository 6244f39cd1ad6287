//! Tests of the printed texts of errors: the words of the report, where it has a line for them.

use pic_charge::Break;
use pic_dump::{HeadStop, UpgradeStop};
use pic_fields::ReadStop;
use pic_num::NoMemory;
use pic_verify::VerifyStop;

const BAD: ReadStop = ReadStop::BadDump { place: 9, cause: 3 };

const WORDS: &str = "out of memory, read fault, bad dump 9 3, bad dump 9 3, out of memory, \
    read fault, bad dump 9 3, broken frame 2 node 4 5 6 div -7 rho 8, out of memory";

const MORE_WORDS: &str = "read fault, broken frame 3 node 6 5 4 div 9 rho -2, read fault, \
    bad dump 9 3, write fault, out of memory";

fn broken(frame: u32, node: [u32; 3], div: i128, rho: i128) -> VerifyStop {
    let at = Break { node, div, rho };
    VerifyStop::Broken { frame, at }
}

#[test]
fn errors_print_the_words_of_the_report(rt: HostRuntime) {
    let (read, head, of_head) = (ReadStop::ReadFault, HeadStop::Read(BAD), HeadStop::NoMemory);
    let (verify, of_verify) = (VerifyStop::ReadFault, VerifyStop::NoMemory);
    let bad = VerifyStop::BadDump { place: 9, cause: 3 };
    let uneven = broken(2, [4, 5, 6], -7, 8);
    let words = format!(in rt.alloc();
        "{NoMemory}, {read}, {BAD}, {head}, {of_head}, {verify}, {bad}, {uneven}, {of_verify}"
    );
    assert_eq!(rt; words.expect(&rt, "memory").as_str(), WORDS);
}

#[test]
fn stops_of_an_upgrade_print_them_too(rt: HostRuntime) {
    let head = HeadStop::Read(ReadStop::ReadFault);
    let uneven = broken(3, [6, 5, 4], 9, -2);
    let (read, write) = (UpgradeStop::ReadFault, UpgradeStop::WriteFault);
    let bad = UpgradeStop::BadDump { place: 9, cause: 3 };
    let memory = UpgradeStop::NoMemory;
    let words = format!(in rt.alloc(); "{head}, {uneven}, {read}, {bad}, {write}, {memory}");
    assert_eq!(rt; words.expect(&rt, "memory").as_str(), MORE_WORDS);
}
