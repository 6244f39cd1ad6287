//! Numbers side by side, by their weights.

ghost use Rattle.std.specs.Prelude.{◌≡◌, ℕ, ◌+◌, ◌<◌, ◌≤◌, length};
ghost use Rattle.pic_num.specs.Sizes.{IsAtMost};
ghost use Rattle.pic_filter.specs.Kept.{kept_at, AreSmall};
ghost use Rattle.pic_filter.specs.Smoothing.{weighted, most_smoothed};
ghost use Rattle.pic_filter.specs.Runs.{number_at, most_across};

use crate::kept::Kept;

/// A number and those on either side, by the weights 2, 1 and 1.
#[inline(always)]
pub(crate) fn weigh(last: i128, own: i128, next: i128) -> i128
    requires last { IsAtMost last most_across }
    requires own { IsAtMost own most_across }
    requires next { IsAtMost next most_across }
    ensures value { result ≡ weighted last own next }
    ensures size { IsAtMost result most_smoothed }
{
    last + 2 * own + next
}

/// Gives each number of a row the sum by weights of three that are kept, from its index on.
#[inline(always)]
pub(crate) fn weigh_row(kept: &[Kept], to: &mut [i128])
    requires long { length to.old + 2 ≤ length kept.now }
    requires small { AreSmall kept.now }
    ensures { (i : ℕ) → i < length to.old → number_at to.new i
        ≡ weighted (kept_at kept.now i).three (kept_at kept.now (i + 1)).three
        (kept_at kept.now (i + 2)).three }
{
    for i in 0..to.len() {
        to[i] = weigh(kept[i].three, kept[i + 1].three, kept[i + 2].three);
    }
}
