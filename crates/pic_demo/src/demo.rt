//! The demonstration's deck.

ghost use Rattle.std.specs.Prelude.{◌≡◌, ◌<◌, IfOk};
ghost use Rattle.pic_demo.specs.Demo.{demo_scales, demo_settings, electron, ion, demo_deck};

use pic_deck::{Deck, Devices, Fill, InitialFields, Settings, Species, SpeciesList};
use pic_grid::{Cells, Name};
use pic_num::{Kind, Mult, NoMemory, Scales, Sub};
use std::alloc::Global;

/// How many particles each species has.
const PARTICLES_OF_EACH: u32 = 1 << 13;

fn scales() -> Scales
    ensures { result ≡ demo_scales }
{
    Scales {
        e_to_b: Mult::new(1, 4),
        b_to_e: Mult::new(1, 1),
        e_force: Mult::new(1, 30),
        b_force: Mult::new(1, 30),
    }
}

fn settings() -> Settings
    ensures { result ≡ demo_settings }
{
    Settings {
        version: 1,
        cells: Cells::new([16; 3], Sub::of_bits(12)),
        tiles: [4; 3],
        steps: 16,
        every: 4,
        filter: 0,
        scales: scales(),
    }
}

fn name_of(alloc: Global, text: &str) -> Result<Name, NoMemory>
    ensures { IfOk result (λ name. name ≡ text.now) }
{
    Ok(Name::from_vec(Vec::from_slice(alloc, text.as_bytes())?))
}

fn at_random(seed: u64) -> Fill
    ensures { result ≡ (electron seed).fill }
{
    Fill::Random {
        count: PARTICLES_OF_EACH,
        seed,
        stream: 54,
        drift: [0; 3],
        spread: [1 << 20; 3],
    }
}

fn at_electrons(seed: u64) -> Fill
    ensures { result ≡ (ion seed).fill }
{
    Fill::Pair {
        of: 0,
        seed,
        stream: 55,
        drift: [0; 3],
        spread: [1 << 14; 3],
    }
}

fn electron(alloc: Global, seed: u64) -> Result<Species, NoMemory>
    ensures { IfOk result (λ s. s ≡ electron seed) }
{
    let name = name_of(alloc, "electron")?;
    let kind = Kind {
        charge: -1,
        mass: 1,
        kick: Mult::new(-1, 2),
        turn: Mult::new(-1, 0),
    };
    let fill = at_random(seed);
    let count = PARTICLES_OF_EACH;
    Ok(Species {
        name,
        kind,
        count,
        fill,
    })
}

fn ion(alloc: Global, seed: u64) -> Result<Species, NoMemory>
    ensures { IfOk result (λ s. s ≡ ion seed) }
{
    let name = name_of(alloc, "ion")?;
    let kind = Kind {
        charge: 1,
        mass: 1836,
        kick: Mult::new(1, 10),
        turn: Mult::new(1, 10),
    };
    let fill = at_electrons(seed);
    let count = PARTICLES_OF_EACH;
    Ok(Species {
        name,
        kind,
        count,
        fill,
    })
}

/// The demonstration's deck of a number: a thermal plasma of 8192 electrons and as many ions in a box
/// of 16 cells on each axis, for 16 steps.
pub fn deck_of(alloc: Global, seed: u32) -> Result<Deck, NoMemory>
    ensures { IfOk result (λ d. d ≡ demo_deck seed) }
{
    let seed = u64::from(seed);
    let mut species = Vec::with_capacity(alloc, 2)?;
    species.push(electron(alloc, seed)?)?;
    species.push(ion(alloc, seed)?)?;
    Ok(Deck::new(
        settings(),
        InitialFields::none(alloc),
        SpeciesList::from_vec(species),
        Devices::none(alloc),
    ))
}
