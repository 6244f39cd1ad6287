//! What the header of a dump says of each species.

ghost use Rattle.pic_grid.specs.Species.{HeadView};

use pic_grid::Name;
use pic_num::{Kind, Listed};
use std::marker::Model;

/// What the header says of a species: its name, what its particles have in common, and how many
/// particles it has.
#[derive(Debug, Drop)]
pub struct Head {
    pub name: Name,
    pub kind: Kind,
    pub count: u32,
}

impl Model for Head {
    ghost Value = { HeadView };

    ghost view = { λ h. record { name = h.name; kind = h.kind; count = h.count } };
}

/// The species of a header, in their order.
pub type Heads = Listed<Head>;
