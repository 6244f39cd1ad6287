//! One tile and one seat, step by step.

ghost use Rattle.std.specs.Prelude.{◌≡◌, ℕ, ◌<◌, [], None, OnSome};
ghost use Rattle.pic_tile.specs.Directions.{directions};
ghost use Rattle.pic_tile.specs.Tile.{parcel_at, with_parcel};
ghost use Rattle.pic_yard.specs.Contents.{to_of};
ghost use Rattle.pic_yard.specs.Yards.{IsSentBy, Owes, Serves, opening_of, view_of};
ghost use Rattle.pic_crew.specs.Posting.{HasPostedAll, HasSent, OwesAll};
ghost use Rattle.pic_crew.specs.Teams.{CanWork, HasWorked};

use crate::opening::{begin, one_tile};
use crate::seeing::{check_current, check_place};
use pic_crew::finish;
use pic_num::NoMemory;
use pic_tile::{Dir, Tile};
use pic_yard::{Claim, Posted, Seat, Yard};
use std::alloc::Global;

// posts a parcel, finishes the tile if this was the last to come to it, and says whether it was
#[tactic(auto, using(pic_crew::proofs::SendLaws::sent_one, pic_crew::proofs::SendLaws::sent_two))]
fn send(yard: &Yard, seat: &mut Seat, claim: &mut Claim, dir: Dir) -> bool
    requires serves { Serves yard.now seat.old }
    requires owes { Owes (opening_of yard.now) (view_of seat.old) claim.old.number dir }
    requires no_right { (view_of seat.old).rights ≡ [] }
    requires worked { let o = opening_of yard.now in
        IsSentBy o claim.old.number dir (parcel_at claim.old.held dir) }
    ensures serves { Serves yard.now seat.new }
    ensures sent { let r = to_of (opening_of yard.now) claim.old.number dir in
        HasSent r dir (view_of seat.old) (view_of seat.new) }
    ensures number { claim.new.number ≡ claim.old.number }
    ensures taken { claim.new.held ≡ with_parcel claim.old.held dir None }
{
    match yard.post(seat, claim, dir) {
        Posted::Counted => false,
        Posted::Ready(right) => {
            finish(yard, seat, right);
            true
        }
    }
}

// posts all parcels of a claim, and says which were the first and the last to give a right, or 27
// where none did
fn send_all(yard: &Yard, seat: &mut Seat, mut claim: Claim) -> (u32, u32)
    requires serves { Serves yard.now seat.old }
    requires owes { OwesAll (opening_of yard.now) claim.number (view_of seat.old) }
    requires worked { (d : ℕ) → d < directions
        → IsSentBy (opening_of yard.now) claim.number d (parcel_at claim.held d) }
    ensures serves { Serves yard.now seat.new }
    ensures all { HasPostedAll (view_of seat.old) (view_of seat.new) }
{
    let mut first = 27;
    let mut last = 27;
    for number in 0..27 {
        if send(yard, seat, &mut claim, Dir::of(number)) {
            first = number.min(first);
            last = number;
        }
    }
    (first, last)
}

// claims the one tile, pushes and finishes it, and is told that no other is left
fn work_one(yard: &Yard, seat: &mut Seat) -> Option<(u32, u32)>
    requires { CanWork yard.now seat.old }
    ensures { OnSome result (HasWorked yard.now seat.old seat.new) }
{
    let mut claim = yard.claim(seat)?;
    yard.work(seat, &mut claim);
    let posts = send_all(yard, seat, claim);
    match yard.claim(seat) {
        Some(_) => None,
        None => Some(posts),
    }
}

// the posts that gave a right at a board of one tile, and the tiles at its end
fn run(alloc: Global) -> Result<Option<((u32, u32), Vec<Tile>)>, NoMemory> {
    let (frame, tiles) = begin(alloc, one_tile())?;
    let (yard, mut seats) = Yard::start(alloc, frame, tiles, 1)?;
    let Some(mut seat) = seats.pop() else {
        return Ok(None);
    };
    let Some(posts) = work_one(&yard, &mut seat) else {
        return Ok(None);
    };
    let (_, tiles) = yard.close(seat);
    Ok(Some((posts, tiles)))
}

#[test]
fn the_last_of_27_posts_gives_the_right(rt: HostRuntime) {
    let done = run(rt.alloc()).expect(&rt, "memory");
    let (posts, tiles) = done.expect(&rt, "all posts");
    assert!(rt; posts == (26, 26));
    assert!(rt; tiles.len() == 1);
    check_place(&rt, &tiles, 0, 0, Some([1024, 0, 0]));
    check_place(&rt, &tiles, 0, 1, Some([8092, 0, 0]));
    check_current(&rt, &tiles, 0, [0, 0, 0], 20132659200);
    check_current(&rt, &tiles, 0, [1, 0, 0], 20132659200);
    check_current(&rt, &tiles, 0, [0, 1, 0], 0);
}
