//! The header of a dump, put.

ghost use Rattle.std.specs.Prelude.{◌≡◌, ◌+◌, ◌*◌, ◌≤◌, ◌<◌, ◌++◌, ℕ, All, length, slice_index_or};
ghost use Rattle.std.specs.List.{flat_map};
ghost use Rattle.pic_num.specs.Limits.{most_letters, most_species, most_loops, most_wave};
ghost use Rattle.pic_num.specs.Space.{triple, axis_number};
ghost use Rattle.pic_header.specs.HeaderFields.{header_most, loop_length, loop_most};
ghost use Rattle.pic_io.specs.Told.{HasCause};
ghost use Rattle.pic_io.specs.Sink.{Puts};
ghost use Rattle.pic_grid.specs.Species.{HeadView, IsName, no_head};
ghost use Rattle.pic_fields.specs.Number.{i64_bytes};
ghost use Rattle.pic_header.specs.HeaderText.{mult_bytes, scales_bytes, cells_bytes, mark_bytes, form_bytes, form_length, front_bytes};
ghost use Rattle.pic_header.specs.HeaderText.{name_bytes, kind_bytes, head_bytes, heads_bytes, wave_bytes, loop_bytes, loops_bytes, header_bytes};

use crate::head::Head;
use crate::header::Header;
use pic_grid::Loop;
use pic_io::{Failed, Sink};
use pic_num::{Kind, Mult, Scales, Sub, Text};

/// Room for the longest header: 76 bytes, 60 for each of 16 species, and 532 for each of 16 loops.
const HEADER_BYTES: usize = 9548;

/// The bytes of a header of version 1 before its species.
pub(crate) const FRONT_BYTES: u64 = 64;

/// The bytes of a species.
pub(crate) const HEAD_BYTES: u64 = 60;

/// The bytes of a loop before the numbers of its wave.
const LOOP_BYTES: u64 = 20;

/// The bytes of a number of a wave.
pub(crate) const NUMBER_BYTES: u64 = 8;

/// The byte of the digit 0.
pub(crate) const ZERO_DIGIT: u32 = 48;

/// The bytes of a name with the zeros behind it.
const NAME_BYTES: usize = 32;

const ZEROS: [u8; NAME_BYTES] = [0; NAME_BYTES];

type HeaderText = Text<HEADER_BYTES>;

/// Puts the header of a dump, in one put: 64 bytes, 12 more in version 2, 60 for each species, and for
/// each loop 20, and 8 for each number of its wave.
///
/// `Failed` comes only where the count of faults rose, and then a front of the header was put.
pub fn put_header<O: Sink>(out: &mut O, header: &Header) -> Result<(), Failed>
    ensures bytes { Puts (O.told out.old) (O.told out.new) (header_bytes header.now) result }
    ensures cause { HasCause (O.told out.old) (O.told out.new) result }
{
    let text = header_text(header);
    out.put(text.bytes())
}

#[tactic(auto, unfolding(crate::specs::HeaderText::header_bytes))]
fn header_text(header: &Header) -> HeaderText
    ensures { result ≡ header_bytes header.now }
{
    let mut text = HeaderText::new();
    push_front(&mut text, header);
    push_heads(&mut text, header.species().as_slice());
    push_loops(&mut text, header.loops().as_slice());
    text
}

// The bytes before the species.
#[tactic(auto, unfolding(crate::specs::HeaderText::front_bytes))]
fn push_front(text: &mut HeaderText, header: &Header)
    requires { length text.old ≡ 0 }
    ensures bytes { text.new ≡ text.old ++ front_bytes header.now }
    ensures len { length text.new ≡ 64 + form_length header.now.version }
{
    push_mark(text, header.version());
    push_cells(text, header.cells().numbers());
    text.push_u32(header.steps());
    text.push_u32(header.every());
    push_scales(text, header.scales());
    push_form(text, header);
    text.push_u32(header.species().as_slice().len() as u32);
}

// The mark: seven letters, and the digit of the version.
#[tactic(auto, unfolding(crate::specs::HeaderText::mark_bytes))]
fn push_mark(text: &mut HeaderText, version: u32)
    requires start { length text.old ≡ 0 }
    requires version { version ≤ 2 }
    ensures bytes { text.new ≡ text.old ++ mark_bytes version }
    ensures len { length text.new ≡ 8 }
{
    text.push(b"PICDUMP");
    text.push(&[(ZERO_DIGIT + version) as u8]);
}

// What version 2 says more: which power of two the side is, the filter, and how many loops there are.
#[tactic(auto, unfolding(crate::specs::HeaderText::form_bytes))]
fn push_form(text: &mut HeaderText, header: &Header)
    requires { length text.old + 12 ≤ header_most }
    ensures bytes { text.new ≡ text.old ++ form_bytes header.now }
    ensures len { length text.new ≡ length text.old + form_length header.now.version }
{
    if header.version() != 1 {
        text.push_u32(header.cells().sub().bits());
        text.push_u32(header.filter());
        text.push_u32(header.loops().as_slice().len() as u32);
    }
}

/// How many bytes that has.
pub(crate) fn form_length(version: u32) -> u64
    ensures { result ≡ form_length version }
{
    if version == 1 { 0 } else { 12 }
}

// The numbers of cells, or those of a cell.
#[tactic(auto, unfolding(crate::specs::HeaderText::cells_bytes))]
fn push_cells(text: &mut HeaderText, cells: [u32; 3])
    requires { length text.old + 12 ≤ header_most }
    ensures bytes { text.new ≡ text.old ++ cells_bytes (triple cells) }
    ensures len { length text.new ≡ length text.old + 12 }
{
    let [x, y, z] = cells;
    text.push_u32(x);
    text.push_u32(y);
    text.push_u32(z);
}

#[tactic(auto, unfolding(crate::specs::HeaderText::scales_bytes))]
fn push_scales(text: &mut HeaderText, scales: Scales)
    requires { length text.old + 32 ≤ header_most }
    ensures bytes { text.new ≡ text.old ++ scales_bytes scales }
    ensures len { length text.new ≡ length text.old + 32 }
{
    push_mult(text, scales.e_to_b);
    push_mult(text, scales.b_to_e);
    push_mult(text, scales.e_force);
    push_mult(text, scales.b_force);
}

#[tactic(auto, unfolding(crate::specs::HeaderText::mult_bytes))]
fn push_mult(text: &mut HeaderText, by: Mult)
    requires { length text.old + 8 ≤ header_most }
    ensures bytes { text.new ≡ text.old ++ mult_bytes by }
    ensures len { length text.new ≡ length text.old + 8 }
{
    text.push_i32(by.n());
    text.push_u32(by.k());
}

// The species, 60 bytes each.
fn push_heads(text: &mut HeaderText, heads: &[Head])
    requires start { length text.old ≤ 76 }
    requires few { length heads.now ≤ most_species }
    requires names { (i : ℕ) → i < length heads.now
        → IsName (slice_index_or heads.now i no_head).name }
    ensures bytes { text.new ≡ text.old ++ heads_bytes heads.now }
    ensures len { length text.new ≡ length text.old + 60 * length heads.now }
{
    for head in heads {
        push_head(text, head);
    }
}

#[tactic(auto, unfolding(crate::specs::HeaderText::head_bytes))]
fn push_head(text: &mut HeaderText, head: &Head)
    requires room { length text.old + 60 ≤ header_most }
    requires name { length head.now.name ≤ most_letters }
    ensures bytes { text.new ≡ text.old ++ head_bytes head.now }
    ensures len { length text.new ≡ length text.old + 60 }
{
    push_name(text, head.name.as_slice());
    push_kind(text, head.kind);
    text.push_u32(head.count);
}

// A name, and zeros behind it.
fn push_name(text: &mut HeaderText, name: &[u8])
    requires room { length text.old + 32 ≤ header_most }
    requires name { length name.now ≤ most_letters }
    ensures bytes { text.new ≡ text.old ++ name_bytes name.now }
    ensures len { length text.new ≡ length text.old + 32 }
{
    text.push(name);
    text.push(&ZEROS[..NAME_BYTES - name.len()]);
}

#[tactic(auto, unfolding(crate::specs::HeaderText::kind_bytes))]
fn push_kind(text: &mut HeaderText, kind: Kind)
    requires { length text.old + 24 ≤ header_most }
    ensures bytes { text.new ≡ text.old ++ kind_bytes kind }
    ensures len { length text.new ≡ length text.old + 24 }
{
    text.push_i32(kind.charge);
    text.push_u32(kind.mass);
    push_mult(text, kind.kick);
    push_mult(text, kind.turn);
}

// The loops, 20 bytes each, and 8 for each number of their waves.
fn push_loops(text: &mut HeaderText, loops: &[Loop])
    requires start { length text.old + loop_most * most_loops ≤ header_most }
    requires few { length loops.now ≤ most_loops }
    requires waves { All (λ l. length l.wave ≤ most_wave) loops.now }
    ensures { text.new ≡ text.old ++ loops_bytes loops.now }
{
    for one in loops {
        push_loop(text, one);
    }
}

/// How many bytes a loop has.
pub(crate) fn loop_length(one: &Loop) -> u64
    requires { length one.now.wave ≤ most_wave }
    ensures value { result ≡ loop_length one.now }
    ensures most { result ≤ loop_most }
{
    LOOP_BYTES + NUMBER_BYTES * one.wave.as_slice().len() as u64
}

#[tactic(auto, unfolding(crate::specs::HeaderText::loop_bytes))]
fn push_loop(text: &mut HeaderText, one: &Loop)
    requires room { length text.old + loop_most ≤ header_most }
    requires wave { length one.now.wave ≤ most_wave }
    ensures bytes { text.new ≡ text.old ++ loop_bytes one.now }
    ensures len { length text.new ≡ length text.old + loop_length one.now }
{
    text.push_u32(one.axis.number());
    push_cells(text, one.cell);
    text.push_u32(one.wave.as_slice().len() as u32);
    push_wave(text, one.wave.as_slice());
}

// The numbers of a wave, 8 bytes each.
fn push_wave(text: &mut HeaderText, wave: &[i64])
    requires room { length text.old + 8 * length wave.now ≤ header_most }
    ensures bytes { text.new ≡ text.old ++ wave_bytes wave.now }
    ensures len { length text.new ≡ length text.old + 8 * length wave.now }
{
    for number in wave {
        push_number(text, *number);
    }
}

#[tactic(auto, unfolding(pic_fields::specs::Number::i64_bytes))]
fn push_number(text: &mut HeaderText, number: i64)
    requires { length text.old + 8 ≤ header_most }
    ensures bytes { text.new ≡ text.old ++ i64_bytes number }
    ensures len { length text.new ≡ length text.old + 8 }
{
    text.push(&number.to_be_bytes());
}
