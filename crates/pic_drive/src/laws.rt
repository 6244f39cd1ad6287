//! Laws of driven loops. Each is the contract of a function that does nothing.

ghost use Rattle.pic_grid.specs.declared.loops.Loop.{Loop};
ghost use Rattle.pic_drive.specs.Drive.{DrivesItsFace, Repeats, DrivesAddUp, DrivenCurrentIsClosed};

/// A loop alone drives the face that it stands round, with the number of its wave, and no other.
pub fn drives_its_face()
    ensures { (l : Loop) → DrivesItsFace l }
{}

/// A loop repeats itself after as many steps as its wave has numbers.
pub fn drives_repeat()
    ensures { (l : Loop) → Repeats l }
{}

/// Without a loop nothing is driven, and the drives of loops add up.
pub fn drives_add_up()
    ensures { DrivesAddUp }
{}

/// The current of loops has no divergence at any node: it changes no charge.
pub fn driven_current_is_closed()
    ensures { DrivenCurrentIsClosed }
{}
