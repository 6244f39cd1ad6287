//! Positions and velocities that are drawn at random.

ghost use Rattle.std.specs.Prelude.{◌≡◌, ℕ, ℤ, pos, ◌*◌, ◌-◌, ◌^◌, ◌<◌, ◌≤◌, ◌+ℤ◌, ◌-ℤ◌, ◌*ℤ◌};
ghost use Rattle.pic_num.specs.declared.axis.Axis.{Axis};
ghost use Rattle.pic_num.specs.Limits.{most_side};
ghost use Rattle.pic_num.specs.Rounding.{rounded};
ghost use Rattle.pic_num.specs.Sizes.{IsAtMost};
ghost use Rattle.pic_num.specs.Space.{triple, spot, along};
ghost use Rattle.pic_deck.specs.Deck.{most_extent};
ghost use Rattle.pic_grid.specs.Hat.{IsInBox};
ghost use Rattle.pic_deck.specs.Species.{fastest, fastest_drift, widest_spread};
ghost use Rattle.pic_load.specs.Generator.{after, word};
ghost use Rattle.pic_load.specs.Drawing.{IsSpread, scaled_word, drawn_place, sum_of_words, mean_of_twelve, drawn_speed, drawn_velocity};

use pic_deck::extent;
use pic_grid::Cells;
use rand_core::utils::NextWord;
use rand_pcg::Pcg32;

/// How many words there are.
const WORDS: u64 = 1 << 32;

/// The mean of the sum of twelve words.
const MEAN_OF_TWELVE: i64 = 6 * ((1 << 32) - 1);

/// Half of what a velocity's unit has, doubled.
const HALF: i64 = 1 << 32;

fn draw_word(rng: &mut Pcg32) -> u32
    ensures value { result ≡ word 0 rng.old }
    ensures left { rng.new ≡ after 1 rng.old }
{
    rng.next_word()
}

// a word as a position on an axis of so many sub-cells
fn position_of(word: u32, len: u32) -> u32
    requires some { 1 ≤ len }
    requires most { len ≤ most_extent }
    ensures value { result ≡ scaled_word word len }
    ensures below { result < len }
{
    (u64::from(word) * u64::from(len) / WORDS) as u32
}

/// A position in the box, by three words.
pub(crate) fn draw_place(rng: &mut Pcg32, cells: Cells) -> [u32; 3]
    ensures value { result ≡ drawn_place cells rng.old }
    ensures within { IsInBox cells.side cells.n (triple result) }
    ensures left { rng.new ≡ after 3 rng.old }
{
    let [x_len, y_len, z_len] = extent(cells);
    let x = position_of(draw_word(rng), x_len);
    let y = position_of(draw_word(rng), y_len);
    let z = position_of(draw_word(rng), z_len);
    [x, y, z]
}

fn sum_of_twelve(rng: &mut Pcg32) -> u64
    ensures value { result ≡ sum_of_words 12 rng.old }
    ensures size { result ≤ 12 * (2 ^ 32 - 1) }
    ensures left { rng.new ≡ after 12 rng.old }
{
    let mut total = 0u64;
    for _ in 0..12u32 {
        total += u64::from(draw_word(rng));
    }
    total
}

// the sum of twelve words less its mean
fn deviate_of(sum: u64) -> i64
    requires { sum ≤ 12 * (2 ^ 32 - 1) }
    ensures value { result ≡ pos sum -ℤ pos mean_of_twelve }
    ensures size { IsAtMost result mean_of_twelve }
{
    sum as i64 - MEAN_OF_TWELVE
}

fn product(spread: u32, deviate: i64) -> i64
    requires spread { spread ≤ widest_spread most_side }
    requires deviate { IsAtMost deviate mean_of_twelve }
    ensures value { result ≡ pos spread *ℤ deviate }
    ensures size { IsAtMost result (widest_spread most_side * mean_of_twelve) }
{
    i64::from(spread) * deviate
}

// rounded to units of a velocity
fn rounded_word(n: i64) -> i64
    requires { IsAtMost n (widest_spread most_side * mean_of_twelve) }
    ensures value { result ≡ rounded n (pos (2 ^ 32)) }
    ensures size { IsAtMost result (6 * widest_spread most_side) }
{
    (2 * n + HALF) >> 33
}

fn sum_of(drift: i32, more: i64) -> i32
    requires drift { IsAtMost drift (fastest_drift most_side) }
    requires more { IsAtMost more (6 * widest_spread most_side) }
    ensures { result ≡ drift +ℤ more }
{
    (i64::from(drift) + more) as i32
}

// a velocity on an axis, by twelve words
fn draw_speed(rng: &mut Pcg32, drift: i32, spread: u32) -> i32
    requires drift { IsAtMost drift (fastest_drift most_side) }
    requires spread { spread ≤ widest_spread most_side }
    ensures value { result ≡ drawn_speed rng.old drift spread }
    ensures left { rng.new ≡ after 12 rng.old }
{
    let deviate = deviate_of(sum_of_twelve(rng));
    sum_of(drift, rounded_word(product(spread, deviate)))
}

/// A velocity of this mean and this spread, by thirty-six words.
pub(crate) fn draw_velocity(rng: &mut Pcg32, drift: [i32; 3], spread: [u32; 3]) -> [i32; 3]
    requires { IsSpread most_side drift spread }
    ensures value { result ≡ drawn_velocity rng.old drift spread }
    ensures size { (side : ℕ) → IsSpread side drift spread
        → (a : Axis) → IsAtMost (along a (spot result)) (fastest side) }
    ensures left { rng.new ≡ after 36 rng.old }
{
    let x = draw_speed(rng, drift[0], spread[0]);
    let y = draw_speed(rng, drift[1], spread[1]);
    let z = draw_speed(rng, drift[2], spread[2]);
    [x, y, z]
}
