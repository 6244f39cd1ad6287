//! The commands on a dump: it is verified, put again in version 2, or its run goes on.
#![tactic(auto)]

mod resuming;
mod upgrading;
mod verifying;

pub use resuming::{Further, resume};
pub use upgrading::upgrade;
pub use verifying::verify;
