//! The deck of a run: what a TOML document says of the grid, the run, the scales, the fields, the
//! species, and what drives and watches the run.
#![tactic(auto)]

mod checks;
mod deck;
mod device_reader;
mod fields;
mod fill_reader;
mod filling;
mod forces;
mod naming;
mod reading;
mod refusal;
mod species;
mod species_reader;

pub use checks::{check_steps, check_tiles};
pub use deck::Deck;
pub use fields::InitialFields;
pub use forces::first_strong;
pub use pic_devices::{Devices, Probes};
pub use pic_settings::Settings;
pub use pic_walk::{KeyPath, Point6, Points, Row, Rows, Terms, extent};
pub use reading::read_deck;
pub use refusal::{DeckFault, Refusal};
pub use species::{Fill, Species, SpeciesList};
pub use species_reader::particles_of;
