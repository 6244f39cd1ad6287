//! Work on a row of items, shared out over workers, each in a thread of its own where one can be made.
//! One thread starts all others, one after another, and does the last share itself: threads that are
//! started by several at the same moment often share a core.

ghost use Rattle.std.specs.Prelude.{◌≡◌, ℕ, List, ◌+◌, ◌/◌, ◌%◌, ◌^◌, ◌<◌, ◌≤◌, length, min};
ghost use Rattle.std.specs.Thread.{IsSend, IsSync};
ghost use Rattle.pic_team.specs.Sharing.{CanShare};

use std::thread::{Threads, join_mut};

/// Work on items that stand in a row, some of them at a time. Beside the items there may stand a row
/// of others, one for each, that are worked on with them; else that row is empty.
pub trait Work<T, U, A> {
    // what some items have to be, of which the first has this number in the whole row
    ghost can: { Self → ℕ → List T → List U → Type 0 };

    // what becomes of them, and the answer
    ghost does: { Self → ℕ → List T → List U → List T → List U → A → Type 0 };

    // the answer of two groups of items by theirs
    ghost both: { A → A → A };

    /// Does the work on some items, of which the first has this number in the whole row.
    fn work(&self, first: usize, items: &mut [T], beside: &mut [U]) -> A
        requires { can self.now first items.old beside.old }
        ensures { does self.now first items.old beside.old items.new beside.new result };

    /// The answer of two groups of items by theirs.
    fn both(front: A, back: A) -> A
        ensures { result ≡ both front back };
}

/// What starts threads, and the work that is shared out.
#[derive(Drop)]
struct Sharing<'a, R, W> {
    rt: &'a R,
    work: &'a W,
}

/// Where a row of items is cut: the number of the first item and of the first behind the cut, and how
/// many workers share out those behind it.
#[derive(Clone, Copy)]
struct Cut {
    first: usize,
    next: usize,
    others: usize,
}

/// Does work on the items of a row, and what stands beside them, by so many workers: each has a share
/// of about as many items.
pub fn each_share<R: Threads + Sync, T: Send, U: Send, A: Send, W: Work<T, U, A> + Sync>(
    rt: &R,
    workers: usize,
    work: &W,
    items: &mut [T],
    beside: &mut [U],
) -> A
    requires some { 0 < workers }
    requires few { length items.old < 2 ^ 64 }
    requires shared { CanShare (W.can work.now) (W.does work.now) W.both }
    requires can { W.can work.now 0 items.old beside.old }
    ensures { W.does work.now 0 items.old beside.old items.new beside.new result }
{
    shares_from(&Sharing { rt, work }, workers, 0, items, beside)
}

/// Does work on some items: the first worker has its share in a new thread, and this one goes on for
/// the others.
#[cycle(shares)]
fn shares_from<R: Threads + Sync, T: Send, U: Send, A: Send, W: Work<T, U, A> + Sync>(
    sharing: &Sharing<R, W>,
    workers: usize,
    first: usize,
    items: &mut [T],
    beside: &mut [U],
) -> A
    requires some { 0 < workers }
    requires few { first + length items.old < 2 ^ 64 }
    requires shared { CanShare (W.can sharing.now.work.now) (W.does sharing.now.work.now) W.both }
    requires can { W.can sharing.now.work.now first items.old beside.old }
    ensures { W.does sharing.now.work.now first items.old beside.old items.new beside.new result }
{
    if workers == 1 {
        return sharing.work.work(first, items, beside);
    }
    let middle = share(items.len(), workers);
    let cut = Cut {
        first,
        next: first + middle,
        others: workers - 1,
    };
    let (front, back) = items.split_at_mut(middle);
    let (front_beside, back_beside) = beside.split_at_mut(middle.min(beside.len()));
    let (one, others) = two_shares(sharing, cut, front, front_beside, back, back_beside);
    W::both(one, others)
}

/// Does work on the items of one worker, in a new thread, and on those of the others.
#[cycle(shares)]
fn two_shares<R: Threads + Sync, T: Send, U: Send, A: Send, W: Work<T, U, A> + Sync>(
    sharing: &Sharing<R, W>,
    cut: Cut,
    front: &mut [T],
    front_beside: &mut [U],
    back: &mut [T],
    back_beside: &mut [U],
) -> (A, A)
    requires some { 0 < cut.others }
    requires few { cut.next + length back.old < 2 ^ 64 }
    requires shared { CanShare (W.can sharing.now.work.now) (W.does sharing.now.work.now) W.both }
    requires front_can { W.can sharing.now.work.now cut.first front.old front_beside.old }
    requires back_can { W.can sharing.now.work.now cut.next back.old back_beside.old }
    ensures front { W.does sharing.now.work.now cut.first front.old front_beside.old front.new
        front_beside.new result.0 }
    ensures back { W.does sharing.now.work.now cut.next back.old back_beside.old back.new
        back_beside.new result.1 }
{
    let Cut {
        first,
        next,
        others,
    } = cut;
    let mut left = || -> A
        requires { W.can sharing.now.work.now first front.now front_beside.now }
        ensures { W.does sharing.entry.now.work.now first front.entry.now front_beside.entry.now
            front.exit.now front_beside.exit.now result }
    { sharing.work.work(first, front, front_beside) };
    let mut right = || -> A
        requires { IsSync R.row × IsSync W.row × IsSend T.row × IsSend U.row × IsSend A.row
            × (0 < others) × (next + length back.now < 2 ^ 64)
            × CanShare (W.can sharing.now.work.now) (W.does sharing.now.work.now) W.both
            × W.can sharing.now.work.now next back.now back_beside.now }
        ensures { W.does sharing.entry.now.work.now next back.entry.now back_beside.entry.now
            back.exit.now back_beside.exit.now result }
    { shares_from(sharing, others, next, back, back_beside) };
    join_mut(sharing.rt, &mut left, &mut right)
}

/// How many of the items the first of the workers takes, if the others share out the rest in the same
/// way: no worker takes more than one item more than another then.
fn share(items: usize, workers: usize) -> usize
    requires { 0 < workers }
    ensures value { result ≡ items / workers + min (items % workers) 1 }
    ensures most { result ≤ items }
{
    items.div_ceil(workers)
}
