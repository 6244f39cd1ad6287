//! A parcel merged into the tile that it goes to, and a tile that has all of them.

ghost use Rattle.std.specs.Prelude.{◌≡◌, ◌^◌, ◌*◌, ◌++◌, ◌⊎◌, ℕ, pos, ◌<◌, Bool, List, [], replicate, Some, None, IsSome, IfOk, IsTrue};
ghost use Rattle.pic_num.specs.declared.motion.Particle.{Particle};
ghost use Rattle.pic_num.specs.Space.{triple, spot};
ghost use Rattle.pic_block.specs.BlockLayers.{most_of_layer};
ghost use Rattle.pic_block.specs.Block.{AllAtMost, IsShaped};
ghost use Rattle.pic_block.specs.Cells.{count_of};
ghost use Rattle.pic_grid.specs.PushPhase.{Surroundings};
ghost use Rattle.pic_tile.specs.Same.{Same};
ghost use Rattle.pic_merge.specs.Pouring.{Poured};
ghost use Rattle.pic_tile.specs.declared.parcel.Parcel.{Parcel as ParcelValue};
ghost use Rattle.pic_tile.specs.Directions.{directions, here};
ghost use Rattle.pic_tile.specs.Layers.{layers_from, layers_size};
ghost use Rattle.pic_tile.specs.Parcels.{IsReady};
ghost use Rattle.pic_tile.specs.Receiving.{Merged, HasMerged, IsReceiving, AreAllDone};
ghost use Rattle.pic_tile.specs.Tile.{parcel_at, flux_at};
ghost use Rattle.pic_tile.specs.Tiling.{Tiling};
ghost use Rattle.pic_tile.specs.Zones.{IsTileZone};

use pic_block::{Block, Zone};
use pic_chain::Chain;
use pic_tile::{Dir, Parcel, ParcelBox, Tile, layers_begin, layers_zone};

/// Merges a parcel into the tile that it goes to. That of no step is the first, and is put in its
/// place. Of any other the flux is added to that of no step and the particles join its particles; it
/// stays as the tile's parcel of its direction, without particles, and with no flux over this tile's
/// layers. The values of both blocks are at most 2^120 in size. No memory is taken.
pub fn merge(tile: &mut Tile, parcel: ParcelBox)
    requires free { parcel_at tile.old parcel.dir ≡ None }
    requires order { (parcel.dir ≡ here) ⊎ IsSome (parcel_at tile.old here) }
    requires zone { (parcel.dir ≡ here → ⊥)
        → IsTileZone (flux_at tile.old here).low (flux_at tile.old here).size }
    requires layers { (parcel.dir ≡ here → ⊥)
        → parcel.flux.size ≡ layers_size (flux_at tile.old here).size parcel.dir }
    requires room { (parcel.dir ≡ here → ⊥) → AllAtMost most_of_layer (flux_at tile.old here) }
    requires small { (parcel.dir ≡ here → ⊥) → AllAtMost most_of_layer parcel.flux }
    ensures { Merged parcel tile.old tile.new }
{
    if parcel.dir == Dir::HERE {
        tile.put_parcel(parcel);
        return;
    }
    let mut parcel = parcel;
    let zone = pour(tile, &mut parcel);
    let low = layers_zone(zone, parcel.dir).low;
    parcel.flux.clear_at(low);
    tile.put_parcel(parcel);
}

/// Closes a tile into which the parcels of all directions are merged. It stays as it is: ready for
/// the next push, and in its parcel of no step the particles that came and the sum of the flux that
/// they brought.
pub fn shut(tile: &mut Tile)
    ensures same { tile.new ≡ tile.old }
    ensures ready { (w : Surroundings) (m : Tiling) (start : ℕ → List Particle) (done : ℕ → Bool)
        (r : ℕ) → AreAllDone done → IsReceiving w m start done r tile.old → IsReady m tile.new }
    ensures own { (w : Surroundings) (m : Tiling) (start : ℕ → List Particle) (done : ℕ → Bool)
        (r : ℕ) → IsReceiving w m start done r tile.old
        → (parcel : ParcelValue) → parcel_at tile.new here ≡ Some parcel
        → HasMerged w m start done r parcel }
{
    let _parcels = tile;
}

/// Adds the flux of a parcel that comes in its direction to that of the parcel of no step, whose zone
/// it answers, and moves the particles into its chain. One that brings nothing is passed over.
fn pour(tile: &mut Tile, from: &mut Parcel) -> Zone
    requires there { IsSome (parcel_at tile.old here) }
    requires zone { IsTileZone (flux_at tile.old here).low (flux_at tile.old here).size }
    requires layers { from.old.flux.size ≡ layers_size (flux_at tile.old here).size from.old.dir }
    requires room { AllAtMost most_of_layer (flux_at tile.old here) }
    requires small { AllAtMost most_of_layer from.old.flux }
    ensures low { spot result.low ≡ (flux_at tile.old here).low }
    ensures size { triple result.size ≡ (flux_at tile.old here).size }
    ensures left { from.new ≡ record from.old { chain = [] } }
    ensures poured { Poured from.old.dir from.old.chain from.old.flux tile.old tile.new }
{
    if brings_nothing(from) {
        return zone_here(tile);
    }
    pour_some(tile, from)
}

/// Whether a parcel is known to have no particles and no flux.
fn brings_nothing(parcel: &Parcel) -> bool
    ensures chain { IsTrue result → parcel.now.chain ≡ [] }
    ensures flux { IsTrue result
        → parcel.now.flux.values ≡ replicate (3 * count_of parcel.now.flux.size) (pos 0) }
{
    parcel.flux.is_blank() && parcel.chain.is_empty()
}

/// The zone of the flux of the parcel of no step.
fn zone_here(tile: &Tile) -> Zone
    requires { IsSome (parcel_at tile.now here) }
    ensures low { spot result.low ≡ (flux_at tile.now here).low }
    ensures size { triple result.size ≡ (flux_at tile.now here).size }
{
    match tile.parcel(Dir::HERE) {
        Some(parcel) => parcel.flux.zone(),
        None => unreachable!(),
    }
}

/// The same of a parcel that may bring something: that of no step is taken out for it, and put back.
#[inline(never)]
fn pour_some(tile: &mut Tile, from: &mut Parcel) -> Zone
    requires there { IsSome (parcel_at tile.old here) }
    requires zone { IsTileZone (flux_at tile.old here).low (flux_at tile.old here).size }
    requires layers { from.old.flux.size ≡ layers_size (flux_at tile.old here).size from.old.dir }
    requires room { AllAtMost most_of_layer (flux_at tile.old here) }
    requires small { AllAtMost most_of_layer from.old.flux }
    ensures low { spot result.low ≡ (flux_at tile.old here).low }
    ensures size { triple result.size ≡ (flux_at tile.old here).size }
    ensures left { from.new ≡ record from.old { chain = [] } }
    ensures poured { Poured from.old.dir from.old.chain from.old.flux tile.old tile.new }
{
    match tile.take_parcel(Dir::HERE) {
        Some(mut parcel) => {
            let zone = parcel.flux.zone();
            let begin = layers_begin(zone, from.dir);
            parcel.flux.add_layers(&from.flux, begin);
            pour_chain(&mut from.chain, &mut parcel.chain);
            tile.put_parcel(parcel);
            zone
        }
        None => unreachable!(),
    }
}

/// Moves the nodes of a chain into another.
fn pour_chain(from: &mut Chain, to: &mut Chain)
    ensures joined { Same to.new (from.old ++ to.old) }
    ensures left { from.new ≡ [] }
{
    while let Some(node) = from.pop() {
        to.push(node);
    }
}

#[cfg(test)]
mod tests {
    use super::*;
    use pic_chain::Node;
    use pic_num::{Axis, NoMemory, Particle};
    use std::alloc::Global;

    const ZONE: Zone = Zone {
        low: [2, 0, 4],
        size: [2, 3, 2],
    };

    // a block of zeros but for one value, at its lowest cell
    fn flux(alloc: Global, zone: Zone, value: i128) -> Result<Block, NoMemory>
        ensures low { IfOk result (λ b. b.low ≡ spot zone.low) }
        ensures size { IfOk result (λ b. b.size ≡ triple zone.size) }
        ensures small { IfOk result (AllAtMost (2 ^ 120)) }
    {
        let mut block = Block::new(alloc, zone)?;
        put(&mut block, zone.low, value);
        Ok(block)
    }

    fn put(block: &mut Block, cell: [i32; 3], value: i128)
        requires { AllAtMost (2 ^ 120) block.old }
        ensures shape { IsShaped block.old block.new }
        ensures small { AllAtMost (2 ^ 120) block.new }
    {
        if !block.has(cell) || value.unsigned_abs() > 1 << 120 {
            return;
        }
        block.set(Axis::X, cell, value);
    }

    // a parcel for the tile of the zone, with one particle and one value of flux
    fn parcel(alloc: Global, number: u32, value: i128) -> Result<ParcelBox, NoMemory>
        requires { number < directions }
        ensures dir { IfOk result (λ p. p.dir ≡ number) }
        ensures low { IfOk result (λ p. p.flux.low ≡ layers_from (record { x = 2; y = 3; z = 2 })
            (record { x = pos 2; y = pos 0; z = pos 4 }) number) }
        ensures size { IfOk result (λ p. p.flux.size
            ≡ layers_size (record { x = 2; y = 3; z = 2 }) number) }
        ensures small { IfOk result (λ p. AllAtMost (2 ^ 120) p.flux) }
    {
        let dir = Dir::of(number);
        let flux = flux(alloc, layers_zone(ZONE, dir), value)?;
        let mut chain = Chain::new();
        chain.push(Node::boxed(
            alloc,
            Particle {
                id: number,
                species: 0,
                x: [0; 3],
                v: [0; 3],
            },
        )?);
        let parcel = Parcel {
            dir,
            chain,
            flux,
            stop: None,
        };
        ParcelBox::new(alloc, parcel)
    }

    // the tile of the zone after two merges
    fn pair(alloc: Global, number: u32) -> Result<Tile, NoMemory>
        requires below { number < directions }
        requires apart { (number ≡ here) → ⊥ }
    {
        let mut tile = Tile::bare(1);
        merge(&mut tile, parcel(alloc, 13, 2)?);
        merge(&mut tile, parcel(alloc, number, 40)?);
        shut(&mut tile);
        Ok(tile)
    }

    // the flux in x of a tile's parcel of a direction at a cell, where there is one
    fn read(tile: &Tile, dir: Dir, cell: [i32; 3]) -> Option<i128> {
        let flux = &tile.parcel(dir)?.flux;
        if flux.has(cell) {
            Some(flux.at(Axis::X, cell))
        } else {
            None
        }
    }

    // the identity of the front particle of a tile's parcel of a direction
    fn front(tile: &Tile, dir: Dir) -> Option<u32> {
        let particle = tile.parcel(dir)?.chain.iter().next()?;
        Some(particle.id)
    }

    #[test]
    fn a_parcel_is_merged_where_its_layers_lie(rt: HostRuntime) -> Result<(), NoMemory> {
        for (number, cell, value) in [
            (0, [3, 2, 5], 40),
            (12, [3, 0, 4], 40),
            (14, [2, 0, 4], 42),
            (22, [2, 0, 4], 42),
            (26, [2, 0, 4], 42),
        ] {
            if number >= Dir::COUNT || number == 13 {
                return Ok(());
            }
            let tile = pair(rt.alloc(), number)?;
            let dir = Dir::of(number);
            assert_eq!(rt; tile.number(), 1);
            assert_eq!(rt; read(&tile, Dir::HERE, cell), Some(value), "{number}");
            assert_eq!(rt;
                read(&tile, dir, layers_zone(ZONE, dir).low),
                Some(0),
                "{number}"
            );
            assert_eq!(rt; front(&tile, Dir::HERE), Some(number));
            assert_eq!(rt; front(&tile, dir), None);
            assert!(rt; tile.parcel(Dir::of(1)).is_none());
        }
        Ok(())
    }
}
