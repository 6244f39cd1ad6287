//! The rule of the board's table.

ghost use Rattle.pic_yard.specs.Rule.{Rule};
ghost use Rattle.pic_yard.specs.Steps.{first_view};

use crate::opening::Opening;
use crate::slot_content::SlotContent;
use crate::view::View;
use atomic_table::TableRule;
use std::snapshot::Snapshot;

/// What the words, slots and views keep between any two steps.
pub struct BoardRule;

impl TableRule<Option<SlotContent>, View, Snapshot<Opening>> for BoardRule {
    ghost holds = { λ key s. Rule key.value s };

    ghost first = { λ key. first_view key.value };
}
