//! Worked rows of the scheme's numbers.

use pic_num::{
    Axis, Listed, Mult, NoMemory, Sub, Text, are_name_bytes, rdiv, scale, trunc_div, unwrapped,
    wrap,
};
use std::alloc::Global;

#[test]
fn axes_follow_each_other(rt: HostRuntime) {
    for (axis, number, next) in [
        (Axis::X, 0, Axis::Y),
        (Axis::Y, 1, Axis::Z),
        (Axis::Z, 2, Axis::X),
    ] {
        assert_eq!(rt; axis.number(), number);
        assert_eq!(rt; axis.next(), next);
        assert_eq!(rt; Axis::of_number(number), axis);
    }
}

#[test]
fn a_cell_is_unwrapped(rt: HostRuntime) {
    assert_eq!(rt; unwrapped([0, 63, 2147483647]), [0, 63, 2147483647]);
}

#[test]
fn a_list_is_its_items(rt: HostRuntime) -> Result<(), std::alloc::AllocError> {
    let list = Listed::from_vec(Vec::from_slice(rt.alloc(), &[3, 1, 2])?);
    assert_eq!(rt; list.as_slice(), [3, 1, 2].as_slice());
    let items = list.into_vec();
    assert_eq!(rt; items.as_slice(), [3, 1, 2].as_slice());
    Ok(())
}

#[test]
fn a_multiplier_keeps_its_limits(rt: HostRuntime) {
    let cases = [
        (2147483647, 62, true),
        (-2147483647, 0, true),
        (-2147483648, 0, false),
        (1, 63, false),
    ];
    for (n, k, good) in cases {
        let made = Mult::try_new(n, k);
        assert_eq!(rt; made.is_some(), good, "{n} / 2^{k}");
        if let Some(m) = made {
            assert_eq!(rt; (m.n(), m.k()), (n, k));
        }
    }
}

#[test]
fn letters_digits_and_a_line_are_name_bytes(rt: HostRuntime) {
    let cases = [
        ("AZ_az09", true),
        ("", true),
        ("e-", false),
        ("a b", false),
        ("@", false),
        ("é", false),
    ];
    for (text, good) in cases {
        assert_eq!(rt; are_name_bytes(text.as_bytes()), good, "{text}");
    }
}

// both ways in which memory is refused become `NoMemory` by `?`
fn one_byte(alloc: Global, byte: u8) -> Result<Vec<u8>, NoMemory> {
    let mut bytes = Vec::with_capacity(alloc, 1)?;
    bytes.push(byte)?;
    Ok(bytes)
}

#[test]
fn a_growth_answers_its_value(rt: HostRuntime) -> Result<(), NoMemory> {
    let bytes = one_byte(rt.alloc(), 7)?;
    assert_eq!(rt; bytes.as_slice(), [7].as_slice());
    Ok(())
}

#[test]
fn quotients_are_rounded_to_the_nearest(rt: HostRuntime) {
    for (n, d, nearest) in [(1, 2, 1), (-1, 2, 0), (-3, 2, -1)] {
        assert_eq!(rt; rdiv(n, d), nearest, "{n} / {d}");
    }
}

#[test]
fn a_multiplier_is_rounded_once(rt: HostRuntime) {
    assert_eq!(rt; scale(-5, Mult::new(1, 1)), -2);
}

#[test]
fn truncation_goes_towards_zero(rt: HostRuntime) {
    for (n, d, whole) in [(7, 2, 3), (-7, 2, -3), (7, -2, -3), (-7, -2, 3), (-1, 2, 0)] {
        assert_eq!(rt; trunc_div(n, d), whole, "{n} / {d}");
    }
}

#[test]
fn a_position_is_wrapped_into_the_box(rt: HostRuntime) {
    for (p, len, place) in [
        (-100, 16384, 16284),
        (16384, 16384, 0),
        (16383, 16384, 16383),
    ] {
        assert_eq!(rt; wrap(p, len), place, "{p} modulo {len}");
    }
}

#[test]
fn a_side_is_a_power_of_two_within_its_limits(rt: HostRuntime) {
    for (bits, side) in [(8, 256), (12, 4096), (14, 16384)] {
        let made = Sub::new(bits);
        assert!(rt; made.is_some(), "{bits}");
        if let Some(sub) = made {
            assert_eq!(rt; sub.side(), side);
            assert_eq!(rt; sub.bits(), bits);
        }
    }
    for bits in [0, 7, 15] {
        assert!(rt; Sub::new(bits).is_none(), "{bits}");
    }
    assert_eq!(rt; Sub::of_bits(12).side(), 4096);
}

#[test]
fn numbers_are_spelled(rt: HostRuntime) {
    let mut text = Text::<120>::new();
    text.push_byte(b'-');
    text.push_u32(258);
    text.push_i32(-2);
    text.push_decimal(340282366920938463463374607431768211455);
    text.push_signed(-7);
    assert_eq!(rt;
        text.bytes(),
        b"-\0\0\x01\x02\xff\xff\xff\xfe340282366920938463463374607431768211455-7".as_slice()
    );
    let mut wide = Text::<32>::new();
    wide.push_u128(1);
    wide.push_i128(-1);
    assert_eq!(rt;
        wide.bytes(),
        b"\0\0\0\0\0\0\0\0\0\0\0\0\0\0\0\x01\xff\xff\xff\xff\xff\xff\xff\xff\xff\xff\xff\xff\xff\xff\xff\xff".as_slice()
    );
}
