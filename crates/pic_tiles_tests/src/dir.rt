//! Directions and their numbers.

use pic_tile::Dir;

#[test]
fn a_direction_has_its_number(rt: HostRuntime) {
    for number in 0..Dir::COUNT {
        assert_eq!(rt; Dir::of(number).number(), number);
    }
    assert_eq!(rt; Dir::HERE.number(), 13);
}
