//! The running board: tiles that workers claim, push, post to one another, and finish, without
//! locks or waits.
#![tactic(auto)]

mod berths;
mod board_rule;
mod board_start;
mod claim;
mod claiming;
mod closing;
mod fronts;
mod giving_back;
mod laws;
mod laying;
mod mailing;
mod opening;
mod seating;
mod slot_content;
mod slot_numbers;
mod unloading;
mod view;
mod yard;

pub use board_rule::BoardRule;
pub use claim::{Claim, Posted, Right};
pub use laws::{
    a_board_begins_with_the_rule, a_tile_is_its_parcels, draws_keep_the_rule, joins_keep_the_rule,
    posts_keep_the_rule, returns_keep_the_rule, splits_keep_the_rule, the_last_seat_ends_all,
    the_rule_keeps_the_census,
};
pub use opening::Opening;
pub use slot_content::{Berth, SlotContent};
pub use view::View;
pub use yard::{Seat, Yard};
