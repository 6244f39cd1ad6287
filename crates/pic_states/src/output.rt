//! What a run puts of its states, and how it goes.

ghost use Rattle.std.specs.Prelude.{◌≡◌};
ghost use Rattle.pic_states.specs.Rooms.{followed_by};

use pic_devices::Probes;

/// What a run puts of its states.
#[derive(Debug, Drop)]
pub enum Output {
    /// The records of a dump on out, and a line of each on the report.
    Dump,
    /// The lines alone, on out.
    Lines,
    /// What these probes see, a line of each state on out.
    Probe(Probes),
}

impl Output {
    /// The identities of the particles that it needs of every state.
    pub fn followed(&self) -> &[u32]
        ensures { result.now ≡ followed_by self.now }
    {
        match self {
            Output::Dump => &[],
            Output::Lines => &[],
            Output::Probe(probes) => probes.ids.as_slice(),
        }
    }
}

/// How a run goes: what it puts of its states, how many steps it has, after how many of them a frame is
/// due, and how many workers push the particles and step the fields.
#[derive(Drop)]
pub struct Plan {
    pub output: Output,
    pub steps: u32,
    pub every: u32,
    pub workers: u32,
}
