//! Laws of what drives a run and what watches it: of the tables `drive` and `probe`.

ghost use Rattle.pic_deck_laws.specs.DriveTable.{LoopsAreSpelled, LoopsAreTested};
ghost use Rattle.pic_deck_laws.specs.ProbeTable.{ProbesAreSpelled, ProbesAreTested};

/// On the cells of a grid, driven loops are accepted exactly where the value of `drive` is an array of
/// as many tables, 16 at most, each of which has the axis, the cell and the wave of its loop, within
/// their limits, and no other key.
pub fn loops_are_spelled()
    ensures { LoopsAreSpelled }
{}

/// The refusal of `drive` is the fault of the first of its tests that fails: its kind and how many
/// tables it has, and then, table by table, its kind and each of its keys, `axis`, `cell` and `wave`.
pub fn loops_are_tested()
    ensures { LoopsAreTested }
{}

/// On the cells of a grid, the probes of a run with so many particles are accepted exactly where the
/// value of `probe` is a table that has at `places` these places, or none and that key isn't there, at
/// `ids` these identities, or none as well, and no other key; 64 at most of each, and within their
/// limits.
pub fn probes_are_spelled()
    ensures { ProbesAreSpelled }
{}

/// The refusal of `probe` is the fault of the first of its tests that fails: its kind and each of its
/// keys, then `places`, place by place and how many they are, and `ids` likewise.
pub fn probes_are_tested()
    ensures { ProbesAreTested }
{}
