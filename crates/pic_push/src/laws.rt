//! Laws of the push over tiles. Each is the contract of a function that does nothing.

ghost use Rattle.pic_tile.specs.LayerSum.{LayersMakeTheCurrent};
ghost use Rattle.pic_tile.specs.Leaving.{WayLeads};
ghost use Rattle.pic_tile.specs.Receiving.{SumsKeepTheBound};
ghost use Rattle.pic_push.specs.PartialSums.{SumsGrowByParticles};

/// The flux that the layers of all senders give to each edge of a tile adds up to the current.
pub fn layers_make_the_current()
    ensures { LayersMakeTheCurrent }
{}

/// The direction in which a push leads a particle out of its tile leads to the tile of its new
/// place.
pub fn the_way_leads_to_the_tile()
    ensures { WayLeads }
{}

/// Whichever directions are merged first, the flux that has come to an edge is at most what so many
/// particles can have at one.
pub fn sums_grow_by_particles()
    ensures { SumsGrowByParticles }
{}

/// Whichever directions are merged first, the flux that has come to an edge keeps the scheme's
/// bound.
pub fn sums_keep_the_bound()
    ensures { SumsKeepTheBound }
{}
