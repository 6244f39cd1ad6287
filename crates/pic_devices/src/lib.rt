//! The loops that drive a run and the probes that watch it, as a deck says them.
#![tactic(auto)]

mod devices;
mod drive_reader;
mod list_reader;
mod place;
mod probe_reader;
mod probes;

pub use devices::Devices;
pub use drive_reader::{optional_drive, read_drive};
pub use place::{Place, Places};
pub use probe_reader::{optional_probes, read_probes};
pub use probes::{Ids, MAX_FIELD, MAX_IDS, MAX_PLACES, Probes};
