//! A law of the demonstration's deck, as the contract of a function that does nothing.

ghost use Rattle.pic_demo.specs.Table.{DemoIsWalked};

/// For every seed the demonstration's deck is the one that the reader's walk gives for the table
/// that its text spells.
pub fn the_demonstration_is_walked()
    ensures { DemoIsWalked }
{}
