//! The header of a dump, read.

ghost use Rattle.std.specs.Prelude.{◌≡◌, ℤ, pos, negsuc, ◌+◌, ◌-◌, ◌*◌, ◌<◌, ◌≤◌, ◌≤ℤ◌, ◌^◌, IsTrue, length, map, Err, IfOk};
ghost use Rattle.pic_num.specs.Limits.{fewest_cells_of_axis, most_species, most_steps, allowance_of};
ghost use Rattle.pic_num.specs.Space.{triple};
ghost use Rattle.pic_num.specs.Versions.{IsVersion, IsSideOf};
ghost use Rattle.pic_grid.specs.Species.{HeadView, IsName, IsKind, AreHeads};
ghost use Rattle.pic_fields.specs.Causes.{cause_number};
ghost use Rattle.pic_fields.specs.Parser.{each};
ghost use Rattle.pic_fields.specs.Reads.{Reads, as_it_is};
ghost use Rattle.pic_fields.specs.declared.read_stop.ReadStop.TheVariants.{ReadFault};
ghost use Rattle.pic_header.specs.declared.head_stop.HeadStop.TheVariants.{Read};
ghost use Rattle.pic_header.specs.Header.{HasLimits, AreCellsOf};
ghost use Rattle.pic_header.specs.HeaderText.{form_length};
ghost use Rattle.pic_header.specs.HeaderFields.{header_length, IsNewHead, Front as FrontOf, version_at, mark_at, axis_at, cells_at, front_at};
ghost use Rattle.pic_header.specs.HeaderFields.{Form as FormOf, form_of_2, form_at, mult_at, scales_at, kind_at, name_of, is_name_field};
ghost use Rattle.pic_header.specs.HeaderFields.{is_new_name_field, name_at, particles_of, head_at, heads_at, loops_at, header_at, header_most};
ghost use Rattle.pic_header.specs.HeadReads.{HeadReads, TakesWithin, TakesLess};

use crate::head::{Head, Heads};
use crate::head_stop::HeadStop;
use crate::header::{Header, HeaderSettings};
use crate::heading::{HEAD_BYTES, ZERO_DIGIT, form_length};
use crate::loop_reader::read_loops;
use crate::name_reader::read_name;
use pic_fields::{Cause, ReadStop, is_from_to, read_between, read_byte, read_exactly, read_within};
use pic_grid::{Cells, Loops, Name};
use pic_io::Source;
use pic_num::{
    Kind, MAX_BITS, MAX_CHARGE, MAX_FILTER, MAX_LOOPS, MAX_MASS, MAX_NUMERATOR, MAX_SHIFT,
    MAX_SPECIES, MAX_STEPS, MAX_VERSION, MIN_BITS, MIN_CELLS, MIN_CHARGE, Mult, NoMemory, Scales,
    Sub, allowance_of,
};
use std::alloc::Global;
use std::marker::Model;

/// The bytes of the mark, behind which the numbers of cells stand.
const MARK_BYTES: u64 = 8;

/// Where what version 2 says more stands, or in version 1 the number of species.
const FORM_PLACE: u64 = 60;

// Reads the mark: seven letters, and the digit of the version.
fn read_mark<S: Source>(source: &mut S) -> Result<u32, ReadStop>
    ensures reads { Reads as_it_is mark_at 0 8 (S.told source.old) (S.told source.new) result }
    ensures version { IfOk result (λ v. IsVersion v) }
{
    read_exactly(source, 0, Cause::WrongLetter, b"PICDUMP")?;
    read_version(source, 7)
}

fn read_version<S: Source>(source: &mut S, place: u64) -> Result<u32, ReadStop>
    requires { place + 1 < 2 ^ 63 }
    ensures reads { Reads as_it_is version_at place (place + 1) (S.told source.old)
        (S.told source.new) result }
    ensures version { IfOk result (λ v. IsVersion v) }
{
    let digit = read_byte(source, place)? as u32;
    if !is_from_to(ZERO_DIGIT + 1, ZERO_DIGIT + MAX_VERSION, digit) {
        return Err(Cause::WrongLetter.at(place));
    }
    Ok(digit - ZERO_DIGIT)
}

fn read_axis<S: Source>(source: &mut S, version: u32, place: u64) -> Result<u32, ReadStop>
    requires { place + 4 < 2 ^ 63 }
    ensures reads { Reads as_it_is (axis_at version) place (place + 4) (S.told source.old)
        (S.told source.new) result }
    ensures least { IfOk result (λ n. fewest_cells_of_axis ≤ n) }
    ensures most { IfOk result (λ n. n ≤ (allowance_of version).cells) }
{
    read_within(
        source,
        place,
        Cause::OutOfLimits,
        MIN_CELLS,
        allowance_of(version).cells,
    )
}

fn read_cells<S: Source>(source: &mut S, version: u32, place: u64) -> Result<[u32; 3], ReadStop>
    requires { place + 12 < 2 ^ 63 }
    ensures reads { Reads triple (cells_at version) place (place + 12) (S.told source.old)
        (S.told source.new) result }
    ensures limits { IfOk result (λ n. AreCellsOf version (triple n)) }
{
    let y_place = place + 4;
    let z_place = y_place + 4;
    let x = read_axis(source, version, place)?;
    let y = read_axis(source, version, y_place)?;
    let z = read_axis(source, version, z_place)?;
    Ok([x, y, z])
}

fn read_mult<S: Source>(source: &mut S, place: u64) -> Result<Mult, ReadStop>
    requires { place + 8 < 2 ^ 63 }
    ensures { Reads as_it_is mult_at place (place + 8) (S.told source.old)
        (S.told source.new) result }
{
    let n = read_between(
        source,
        place,
        Cause::OutOfLimits,
        -MAX_NUMERATOR,
        MAX_NUMERATOR,
    )?;
    let k = read_within(source, place + 4, Cause::OutOfLimits, 0, MAX_SHIFT)?;
    Ok(Mult::new(n, k))
}

fn read_scales<S: Source>(source: &mut S, place: u64) -> Result<Scales, ReadStop>
    requires { place + 32 < 2 ^ 63 }
    ensures { Reads as_it_is scales_at place (place + 32) (S.told source.old)
        (S.told source.new) result }
{
    let b_to_e_place = place + 8;
    let e_force_place = b_to_e_place + 8;
    let b_force_place = e_force_place + 8;
    let e_to_b = read_mult(source, place)?;
    let b_to_e = read_mult(source, b_to_e_place)?;
    let e_force = read_mult(source, e_force_place)?;
    let b_force = read_mult(source, b_force_place)?;
    Ok(Scales {
        e_to_b,
        b_to_e,
        e_force,
        b_force,
    })
}

/// What both versions say before what version 2 says more.
#[derive(Drop)]
struct Front {
    cells: [u32; 3],
    steps: u32,
    every: u32,
    scales: Scales,
}

impl Model for Front {
    ghost Value = { FrontOf };

    ghost view = { λ f. record {
      cells = triple f.cells;
      steps = f.steps;
      every = f.every;
      scales = f.scales;
    } };
}

fn read_front<S: Source>(source: &mut S, version: u32, place: u64) -> Result<Front, ReadStop>
    requires { place + 52 < 2 ^ 63 }
    ensures reads { Reads as_it_is (front_at version) place (place + 52) (S.told source.old)
        (S.told source.new) result }
    ensures within { TakesWithin (front_at version) place (S.told source.old)
        (S.told source.new) }
    ensures less { result ≡ Err ReadFault
        → TakesLess (front_at version) place (S.told source.old) (S.told source.new) }
    ensures cells { IfOk result (λ f. AreCellsOf version f.cells) }
    ensures steps { IfOk result (λ f. f.steps ≤ most_steps) }
    ensures least { IfOk result (λ f. 1 ≤ f.every) }
    ensures most { IfOk result (λ f. f.every ≤ most_steps) }
{
    let steps_place = place + 12;
    let every_place = steps_place + 4;
    let scales_place = every_place + 4;
    let cells = read_cells(source, version, place)?;
    let steps = read_within(source, steps_place, Cause::OutOfLimits, 0, MAX_STEPS)?;
    let every = read_within(source, every_place, Cause::OutOfLimits, 1, MAX_STEPS)?;
    let scales = read_scales(source, scales_place)?;
    Ok(Front {
        cells,
        steps,
        every,
        scales,
    })
}

// What version 2 says more: the side of a cell, the filter of the current, and how many loops there are.
#[derive(Drop)]
struct Form {
    side: Sub,
    filter: u32,
    loops: u32,
}

impl Model for Form {
    ghost Value = { FormOf };

    ghost view = { λ f. record { side = f.side; filter = f.filter; loops = f.loops } };
}

// Reads what version 2 says more.
fn read_form_of_2<S: Source>(source: &mut S, place: u64) -> Result<Form, ReadStop>
    requires { place + 12 < 2 ^ 63 }
    ensures reads { Reads as_it_is form_of_2 place (place + 12) (S.told source.old)
        (S.told source.new) result }
    ensures side { IfOk result (λ f. IsSideOf 2 f.side) }
    ensures filter { IfOk result (λ f. f.filter ≤ (allowance_of 2).filter) }
    ensures loops { IfOk result (λ f. f.loops ≤ (allowance_of 2).loops) }
{
    let filter_place = place + 4;
    let loops_place = filter_place + 4;
    let bits = read_within(source, place, Cause::OutOfLimits, MIN_BITS, MAX_BITS)?;
    let filter = read_within(source, filter_place, Cause::OutOfLimits, 0, MAX_FILTER)?;
    let loops = read_within(source, loops_place, Cause::OutOfLimits, 0, MAX_LOOPS)?;
    let side = Sub::of_bits(bits);
    Ok(Form {
        side,
        filter,
        loops,
    })
}

// Reads what a version says of the side of a cell, of the filter and of the loops.
fn read_form<S: Source>(source: &mut S, version: u32, place: u64) -> Result<Form, ReadStop>
    requires version { IsVersion version }
    requires place { place + 12 < 2 ^ 63 }
    ensures reads { Reads as_it_is (form_at version) place (place + form_length version)
        (S.told source.old) (S.told source.new) result }
    ensures side { IfOk result (λ f. IsSideOf version f.side) }
    ensures filter { IfOk result (λ f. f.filter ≤ (allowance_of version).filter) }
    ensures loops { IfOk result (λ f. f.loops ≤ (allowance_of version).loops) }
{
    if version == 1 {
        let side = Sub::of_bits(allowance_of(version).least_bits);
        return Ok(Form {
            side,
            filter: 0,
            loops: 0,
        });
    }
    read_form_of_2(source, place)
}

fn read_kind<S: Source>(source: &mut S, place: u64) -> Result<Kind, ReadStop>
    requires { place + 24 < 2 ^ 63 }
    ensures reads { Reads as_it_is kind_at place (place + 24) (S.told source.old)
        (S.told source.new) result }
    ensures limits { IfOk result (λ k. IsKind k) }
{
    let mass_place = place + 4;
    let kick_place = mass_place + 4;
    let turn_place = kick_place + 8;
    let charge = read_between(source, place, Cause::OutOfLimits, MIN_CHARGE, MAX_CHARGE)?;
    let mass = read_within(source, mass_place, Cause::OutOfLimits, 1, MAX_MASS)?;
    let kick = read_mult(source, kick_place)?;
    let turn = read_mult(source, turn_place)?;
    Ok(Kind {
        charge,
        mass,
        kick,
        turn,
    })
}

// Reads a species after others, which have so many particles of the most that are allowed.
fn read_head<S: Source>(
    alloc: Global,
    source: &mut S,
    place: u64,
    earlier: &[Head],
    particles: u32,
    most: u32,
) -> Result<Head, HeadStop>
    requires place { place + 60 < 2 ^ 63 }
    requires count { particles ≡ particles_of earlier.now }
    requires most { particles ≤ most }
    ensures reads { HeadReads (λ h. h) (head_at most earlier.now) place (λ _. place + 60)
        (place + 60) (S.told source.old) (S.told source.new) result }
    ensures within { TakesWithin (head_at most earlier.now) place (S.told source.old)
        (S.told source.new) }
    ensures less { result ≡ Err (Read ReadFault)
        → TakesLess (head_at most earlier.now) place (S.told source.old) (S.told source.new) }
    ensures new { IfOk result (λ h. IsNewHead most earlier.now h) }
{
    let kind_place = place + 32;
    let count_place = kind_place + 24;
    let name = read_name(source, place, earlier)?;
    let kind = read_kind(source, kind_place)?;
    let count = read_within(source, count_place, Cause::OutOfLimits, 0, most - particles)?;
    let head = make_head(alloc, name.bytes(), kind, count)?;
    Ok(head)
}

fn make_head(alloc: Global, name: &[u8], kind: Kind, count: u32) -> Result<Head, NoMemory>
    ensures { IfOk result (λ h. h ≡ record { name = name.now; kind = kind; count = count }) }
{
    let name = Name::from_vec(Vec::from_slice(alloc, name)?);
    Ok(Head { name, kind, count })
}

// Reads so many species, with so many particles at most.
fn read_each_head<S: Source>(
    alloc: Global,
    source: &mut S,
    place: u64,
    count: u32,
    most: u32,
) -> Result<Vec<Head>, HeadStop>
    requires few { count ≤ 16 }
    requires place { place + 60 * 16 < 2 ^ 63 }
    ensures reads { HeadReads (λ hs. hs.items) (each count (head_at most)) place
        (λ hs. place + 60 * length hs) (place + 60 * count) (S.told source.old)
        (S.told source.new) result }
    ensures within { TakesWithin (each count (head_at most)) place (S.told source.old)
        (S.told source.new) }
    ensures less { result ≡ Err (Read ReadFault)
        → TakesLess (each count (head_at most)) place (S.told source.old) (S.told source.new) }
    ensures heads { IfOk result (λ hs. AreHeads most hs.items) }
{
    let mut heads = Vec::new(alloc);
    let mut particles = 0u32;
    for index in 0..count {
        let at = place + HEAD_BYTES * index as u64;
        let head = read_head(alloc, source, at, heads.as_slice(), particles, most)?;
        particles += head.count;
        heads.push(head)?;
    }
    Ok(heads)
}

// Reads the species, with so many particles at most.
fn read_heads<S: Source>(
    alloc: Global,
    source: &mut S,
    place: u64,
    most: u32,
) -> Result<Vec<Head>, HeadStop>
    requires { place + 1000 < 2 ^ 63 }
    ensures reads { HeadReads (λ hs. hs.items) (heads_at most) place
        (λ hs. place + 4 + 60 * length hs) (place + 4 + 60 * 16) (S.told source.old)
        (S.told source.new) result }
    ensures within { TakesWithin (heads_at most) place (S.told source.old) (S.told source.new) }
    ensures less { result ≡ Err (Read ReadFault)
        → TakesLess (heads_at most) place (S.told source.old) (S.told source.new) }
    ensures heads { IfOk result (λ hs. AreHeads most hs.items) }
{
    let heads_place = place + 4;
    let count = read_within(source, place, Cause::OutOfLimits, 0, MAX_SPECIES)?;
    read_each_head(alloc, source, heads_place, count, most)
}

/// Reads the header, field by field.
pub fn read_header<S: Source>(alloc: Global, source: &mut S) -> Result<Header, HeadStop>
    ensures reads { HeadReads (λ h. h) header_at 0 header_length
        header_most (S.told source.old) (S.told source.new) result }
    ensures within { TakesWithin header_at 0 (S.told source.old) (S.told source.new) }
    ensures less { result ≡ Err (Read ReadFault)
        → TakesLess header_at 0 (S.told source.old) (S.told source.new) }
    ensures few { IfOk result (λ h. length h.species ≤ most_species) }
{
    let version = read_mark(source)?;
    let front = read_front(source, version, MARK_BYTES)?;
    let form = read_form(source, version, FORM_PLACE)?;
    let heads_place = FORM_PLACE + form_length(version);
    let heads = read_heads(alloc, source, heads_place, allowance_of(version).particles)?;
    let cells = Cells::new(front.cells, form.side);
    let loops_place = heads_place + 4 + HEAD_BYTES * heads.as_slice().len() as u64;
    let loops = read_loops(alloc, source, loops_place, cells, form.loops)?;
    let settings = HeaderSettings {
        version,
        cells,
        steps: front.steps,
        every: front.every,
        filter: form.filter,
        scales: front.scales,
    };
    Ok(Header::new(settings, Heads::from_vec(heads), Loops::from_vec(loops)))
}
