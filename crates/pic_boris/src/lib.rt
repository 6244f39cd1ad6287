//! The Boris push of one particle.
#![tactic(auto)]

mod halt;
mod moved;
mod narrow;
mod narrow_pushing;
mod narrow_turning;
mod pushing;
mod turning;
mod vector;

pub use halt::Halt;
pub use moved::Moved;
pub use narrow_pushing::{MAX_SMALL_FIELD, push_narrow};
pub use pushing::{push, push_wide};
