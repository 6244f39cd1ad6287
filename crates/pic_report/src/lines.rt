//! The lines of a call, but for those of refused decks and of frames.

ghost use Rattle.std.specs.Prelude.{◌≡◌, ◌≤◌, length};
ghost use Rattle.pic_report.specs.Lines.{check_line, verified_line, upgraded_line, gauss_line, bad_dump_line};
ghost use Rattle.pic_report.specs.Lines.{broken_line, usage_line, read_fault_line, break_tail, limit_tail};

use pic_charge::Break;
use pic_num::Text;

/// Room for the longest line.
pub const LINE_BYTES: usize = 280;

/// The line of words that are no command.
#[tactic(auto, unfolding(crate::specs::Lines::usage_line))]
pub fn line_of_usage() -> &'static [u8]
    ensures { result.now ≡ usage_line }
{
    b"usage: pic [check | run [--workers N] | verify | demo SEED [--workers N] | upgrade | resume --steps M [--workers N] | probe [--workers N]]\n"
}

/// The line of a read that failed.
#[tactic(auto, unfolding(crate::specs::Lines::read_fault_line))]
pub fn line_of_read_fault() -> &'static [u8]
    ensures { result.now ≡ read_fault_line }
{
    b"read fault\n"
}

/// The line of a deck that can be run.
#[tactic(auto, unfolding(crate::specs::Lines::check_line))]
pub fn line_of_check(particles: u32) -> Text<LINE_BYTES>
    ensures { result ≡ check_line particles }
{
    let mut text = Text::new();
    text.push(b"ok ");
    text.push_decimal(u128::from(particles));
    text.push(b" particles\n");
    text
}

/// The line of a dump whose frames are good.
#[tactic(auto, unfolding(crate::specs::Lines::verified_line))]
pub fn line_of_verified(frames: u32) -> Text<LINE_BYTES>
    ensures { result ≡ verified_line frames }
{
    let mut text = Text::new();
    text.push(b"verified ");
    text.push_decimal(u128::from(frames));
    text.push(b" frames\n");
    text
}

/// The line of a dump that was put in the spelling of version 2.
#[tactic(auto, unfolding(crate::specs::Lines::upgraded_line))]
pub fn line_of_upgraded(frames: u32) -> Text<LINE_BYTES>
    ensures { result ≡ upgraded_line frames }
{
    let mut text = Text::new();
    text.push(b"upgraded ");
    text.push_decimal(u128::from(frames));
    text.push(b" frames\n");
    text
}

/// The line of a deck that doesn't meet Gauss's law.
#[tactic(auto, unfolding(crate::specs::Lines::gauss_line))]
pub fn line_of_break(at: Break) -> Text<LINE_BYTES>
    ensures { result ≡ gauss_line at }
{
    let tail = tail_of_break(at);
    let mut text = Text::new();
    text.push(b"gauss ");
    text.push(tail.bytes());
    text
}

/// The line of a dump that leaves the format.
#[tactic(auto, unfolding(crate::specs::Lines::bad_dump_line))]
pub fn line_of_bad_dump(place: u64, cause: u8) -> Text<LINE_BYTES>
    ensures { result ≡ bad_dump_line place cause }
{
    let mut text = Text::new();
    text.push(b"bad dump ");
    text.push_decimal(u128::from(place));
    text.push(b" ");
    text.push_decimal(u128::from(cause));
    text.push(b"\n");
    text
}

/// The line of a dump with a frame that doesn't meet Gauss's law.
#[tactic(auto, unfolding(crate::specs::Lines::broken_line))]
pub fn line_of_broken(frame: u32, at: Break) -> Text<LINE_BYTES>
    ensures { result ≡ broken_line frame at }
{
    let tail = tail_of_break(at);
    let mut text = Text::new();
    text.push(b"broken frame ");
    text.push_decimal(u128::from(frame));
    text.push(b" node ");
    text.push(tail.bytes());
    text
}

// The end of both lines on Gauss's law: the node, and what stands there.
#[tactic(auto, unfolding(crate::specs::Lines::break_tail))]
fn tail_of_break(at: Break) -> Text<LINE_BYTES>
    ensures value { result ≡ break_tail at }
    ensures len { length result ≤ 213 }
{
    let [x, y, z] = at.node;
    let mut text = Text::new();
    text.push_decimal(u128::from(x));
    text.push(b" ");
    text.push_decimal(u128::from(y));
    text.push(b" ");
    text.push_decimal(u128::from(z));
    text.push(b" div ");
    text.push_signed(at.div);
    text.push(b" rho ");
    text.push_signed(at.rho);
    text.push(b"\n");
    text
}

/// The end of a limit's line: the number, and its limits.
#[tactic(auto, unfolding(crate::specs::Lines::limit_tail))]
pub fn tail_of_limit(value: i128, low: i128, high: i128) -> Text<LINE_BYTES>
    ensures { result ≡ limit_tail value low high }
{
    let mut text = Text::new();
    text.push(b" ");
    text.push_signed(value);
    text.push(b" ");
    text.push_signed(low);
    text.push(b" ");
    text.push_signed(high);
    text.push(b"\n");
    text
}
