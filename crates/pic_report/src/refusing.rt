//! The line of a refused deck, which takes no memory, however long its path is.

ghost use Rattle.std.specs.Prelude.{◌≡◌, ◌<◌, ◌≤◌, ◌++◌, length, OnOk};
ghost use Rattle.pic_deck.specs.declared.refusal.Refusal.TheVariants.{Limit};
ghost use Rattle.pic_io.specs.Sinks.{WritesLine};
ghost use Rattle.pic_report.specs.Lines.{printed_char, printed_path, path_line, refused_line};
ghost use Rattle.pic_report.specs.Piece.{PutsFull};

use crate::lines::tail_of_limit;
use crate::writing::put_line;
use pic_deck::{KeyPath, Refusal};
use pic_io::{Side, Sink};
use pic_num::Text;

// The bytes of a put at most; a line with a longer path is put in several.
const PIECE_BYTES: usize = 256;

/// Puts the line of a deck that is refused on the report. It takes no memory, however long the path.
#[tactic(auto, unfolding(crate::specs::Lines::refused_line))]
pub fn put_refusal<R: Sink>(report: &mut R, refusal: &Refusal) -> Result<(), Side>
    ensures { WritesLine (R.told report.old) (R.told report.new) (refused_line refusal.now) result }
{
    match refusal {
        Refusal::Text => put_line(report, b"refused 1 text\n"),
        Refusal::Unknown { path } => put_path_line(report, b"refused 2 unknown ", path, b"\n"),
        Refusal::Missing { path } => put_path_line(report, b"refused 3 missing ", path, b"\n"),
        Refusal::Kind { path } => put_path_line(report, b"refused 4 kind ", path, b"\n"),
        Refusal::Limit {
            path,
            value,
            low,
            high,
        } => put_limit(report, path, *value, *low, *high),
        Refusal::Name { path } => put_path_line(report, b"refused 6 name ", path, b"\n"),
    }
}

#[tactic(auto, unfolding(crate::specs::Lines::refused_line))]
fn put_limit<R: Sink>(
    report: &mut R,
    path: &KeyPath,
    value: i128,
    low: i128,
    high: i128,
) -> Result<(), Side>
    ensures { WritesLine (R.told report.old) (R.told report.new)
        (refused_line (Limit path.now value low high)) result }
{
    let tail = tail_of_limit(value, low, high);
    put_path_line(report, b"refused 5 limit ", path, tail.bytes())
}

fn put_path_line<R: Sink>(
    report: &mut R,
    head: &[u8],
    path: &KeyPath,
    tail: &[u8],
) -> Result<(), Side>
    requires { length head.now ≤ PIECE_BYTES }
    ensures { WritesLine (R.told report.old) (R.told report.new)
        (path_line head.now path.now tail.now) result }
{
    put_path(report, head, path.as_str())?;
    put_line(report, tail)
}

// The head, and the path with each character outside `!` to `~` as `?`.
fn put_path<R: Sink>(report: &mut R, head: &[u8], path: &str) -> Result<(), Side>
    requires { length head.now ≤ PIECE_BYTES }
    ensures { WritesLine (R.told report.old) (R.told report.new)
        (head.now ++ printed_path path.now) result }
{
    let mut piece: Text<PIECE_BYTES> = Text::new();
    piece.push(head);
    for c in path.chars() {
        put_full(report, &mut piece)?;
        piece.push_byte(printed_char(c));
    }
    put_line(report, piece.bytes())
}

// Puts a piece that has no room for one byte more, and begins the next one.
fn put_full<R: Sink>(report: &mut R, piece: &mut Text<PIECE_BYTES>) -> Result<(), Side>
    ensures room { OnOk result (length piece.new < PIECE_BYTES) }
    ensures puts { PutsFull (R.told report.old) (R.told report.new) piece.old piece.new result }
{
    if piece.bytes().len() < PIECE_BYTES {
        return Ok(());
    }
    put_line(report, piece.bytes())?;
    *piece = Text::new();
    Ok(())
}

fn printed_char(c: char) -> u8
    ensures { result ≡ printed_char c }
{
    if c >= '!' && c <= '~' { c as u8 } else { b'?' }
}
