//! A step of E by the current of a push, filtered where there is room for that.

ghost use Rattle.std.specs.Prelude.{◌≡◌, pos, IfSome, IsTrue};
ghost use Rattle.pic_num.specs.Limits.{most_value};
ghost use Rattle.pic_grid.specs.Lattice.{EachAtMost, field_of, value_at};
ghost use Rattle.pic_filter.specs.Smoothing.{filtered, filter_in, most_to_smooth};
ghost use Rattle.pic_field.specs.FieldPhases.{full_of, no_drive, most_raised};
ghost use Rattle.pic_advance.specs.Blocks.{EachBlock, IsMade};
ghost use Rattle.pic_advance.specs.Current.{LiesOn};
ghost use Rattle.pic_advance.specs.Phases.{Advances};

use crate::filtering::{clear_values, filter_current};
use crate::full_step::advance_e;
use pic_block::Block;
use pic_grid::{Lattice, Phase, Stop};
use pic_num::Scales;
use pic_team::Team;
use std::thread::Threads;

/// The current of a push, and where it is filtered room for that: a lattice of the same cells and parts.
#[derive(Drop)]
pub struct Current {
    pub flux: Lattice,
    pub smooth: Option<Lattice>,
}

/// A step of E, from B and the current, which is filtered where there is room for that, by the workers
/// of a team. No memory is taken. The current is handed back as a lattice of zeros, with its room, also
/// where the answer is a stop. The values of E may be those that the curl of a drive was added to.
///
/// # Errors
/// The stop of the least place (the axis first, then z, y, x) whose new value is above 2^90 in
/// size, or else its force value above 2^44.
pub fn drive_e<H: Threads + Sync, G>(
    team: &Team<H, G>,
    scales: &Scales,
    b: &Lattice,
    current: Current,
    e: Lattice,
) -> (Result<Lattice, Stop>, Current)
    requires cells { e.cells ≡ b.now.cells }
    requires flux { current.flux.cells ≡ b.now.cells }
    requires smooth { IfSome current.smooth (LiesOn b.now.cells current.flux.parts) }
    requires flux_small { EachAtMost most_to_smooth current.flux }
    requires b_small { EachAtMost most_value b.now }
    requires e_small { EachAtMost most_raised e }
    ensures fields { Advances Phase.Electric scales.now.e_force b.now.side b.now.cells e.parts
        (λ a p. full_of scales.now b.now no_drive a p (value_at e a p)
        (filtered (filter_in current.smooth) b.now.cells (value_at current.flux a) p)) result.0 }
    ensures cleared { result.1.flux
        ≡ field_of current.flux.side current.flux.cells current.flux.parts (λ _ _. pos 0) }
    ensures filter { filter_in result.1.smooth ≡ filter_in current.smooth }
    ensures smooth { IfSome result.1.smooth (LiesOn b.now.cells current.flux.parts) }
{
    let Current { flux, smooth } = current;
    match smooth {
        None => {
            let (e, flux) = drive_by(team, scales, b, flux, e);
            (e, Current { flux, smooth: None })
        }
        Some(room) => {
            let (filtered, flux) = filter_current(team, flux, room);
            let e = advance_e(team, scales, b, Some(&filtered), e);
            let smooth = Some(filtered);
            (e, Current { flux, smooth })
        }
    }
}

/// A step of E by a current that isn't filtered, and the current as a lattice of zeros.
fn drive_by<H: Threads + Sync, G>(
    team: &Team<H, G>,
    scales: &Scales,
    b: &Lattice,
    flux: Lattice,
    e: Lattice,
) -> (Result<Lattice, Stop>, Lattice)
    requires cells { e.cells ≡ b.now.cells }
    requires flux { flux.cells ≡ b.now.cells }
    requires flux_small { EachAtMost most_value flux }
    requires b_small { EachAtMost most_value b.now }
    requires e_small { EachAtMost most_raised e }
    ensures fields { Advances Phase.Electric scales.now.e_force b.now.side b.now.cells e.parts
        (λ a p. full_of scales.now b.now no_drive a p (value_at e a p) (value_at flux a p))
        result.0 }
    ensures cleared { result.1 ≡ field_of flux.side flux.cells flux.parts (λ _ _. pos 0) }
{
    let (flux, blank) = known_blank(flux);
    if blank {
        let e = advance_e(team, scales, b, None, e);
        return (e, flux);
    }
    let e = advance_e(team, scales, b, Some(&flux), e);
    (e, clear_values(team, flux))
}

/// A lattice, and whether it is known to have no value but 0. Such a one needn't be read nor cleared.
fn known_blank(lattice: Lattice) -> (Lattice, bool)
    ensures same { result.0 ≡ lattice }
    ensures blank { IsTrue result.1
        → lattice ≡ field_of lattice.side lattice.cells lattice.parts (λ _ _. pos 0) }
{
    let cells = lattice.cells();
    let [_, _, _] = cells.numbers();
    let parts = lattice.parts();
    let blocks = lattice.into_blocks();
    let blank = are_blank(&blocks);
    (Lattice::of_blocks(cells, parts, blocks), blank)
}

/// Whether none of some blocks has a component but 0, as far as they know.
fn are_blank(blocks: &[Block]) -> bool
    ensures { IsTrue result → EachBlock (IsMade (λ _ _. pos 0)) blocks.now blocks.now }
{
    for i in 0..blocks.len() {
        if !blocks[i].is_blank() {
            return false;
        }
    }
    true
}
