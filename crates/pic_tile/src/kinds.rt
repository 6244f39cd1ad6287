//! The species of a run.

ghost use Rattle.std.specs.Prelude.{◌≡◌, IfOk};
ghost use Rattle.pic_tile.specs.Frame.{AreKinds};

use pic_num::{Kind, NoMemory};
use std::alloc::Global;
use std::marker::Model;

/// What the particles of each species have in common, for at most 16 species, which contracts see
/// as a list.
#[derive(Drop)]
pub struct Kinds {
    items: Vec<Kind>,
}

impl Model for Kinds {
    ghost use Rattle.std.specs.Prelude.{List};
    ghost use Rattle.pic_num.specs.declared.motion.Kind.{Kind};
    ghost use Rattle.pic_tile.specs.Frame.{AreKinds};

    ghost Value = { List Kind };

    ghost view = { λ k. k.items.items };

    ghost invariant = { λ k. AreKinds k.items.items };
}

impl Kinds {
    /// The species of these kinds, which are within the limits; it takes no memory.
    pub fn from_vec(items: Vec<Kind>) -> Kinds
        requires { AreKinds items.items }
        ensures { result ≡ items.items }
    {
        Kinds { items }
    }

    /// The kinds in the order of the species.
    pub fn as_slice(&self) -> &[Kind]
        ensures value { result.now ≡ self.now }
        ensures limits { AreKinds self.now }
    {
        self.items.as_slice()
    }

    /// The same species once more.
    pub fn copy(&self, alloc: Global) -> Result<Kinds, NoMemory>
        ensures { IfOk result (λ kinds. kinds ≡ self.now) }
    {
        let items = Vec::from_slice(alloc, self.items.as_slice())?;
        Ok(Kinds { items })
    }
}
