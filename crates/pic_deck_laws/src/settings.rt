//! Laws of what a deck sets for its run: of its version and its tables `grid`, `run` and `scale`.

ghost use Rattle.pic_deck_laws.specs.GridTable.{GridsAreSpelled, GridsAreTested};
ghost use Rattle.pic_deck_laws.specs.RunTable.{RunsAreSpelled, RunsAreTested};
ghost use Rattle.pic_deck_laws.specs.ScaleTable.{ScalesAreSpelled, ScalesAreTested};
ghost use Rattle.pic_deck_laws.specs.SettingsTables.{SettingsAreSpelled, SettingsAreTested};

/// In a deck of a version, cells with a side and tiles are accepted exactly where the table `grid` has
/// at `cells` these cells and at `tiles` these tiles, by axis, at `sub` the power of two that the side
/// is (in version 1 that key isn't there, and the side is 2^12), and no other key; where each axis has
/// from 2 cells to as many as the version allows, the side is one that it allows, and each axis is cut
/// into tiles of one size, of two cells or more, of which there are 512 at most.
pub fn grids_are_spelled()
    ensures { GridsAreSpelled }
{}

/// The refusal of a table `grid` is the fault of the first of its tests that fails: whether it is
/// there, its kind and each of its keys, then `cells`, `tiles` axis by axis and all together, and `sub`.
pub fn grids_are_tested()
    ensures { GridsAreTested }
{}

/// A course of a run is accepted exactly where the table `run` has its steps and its frames' distance,
/// each within its limits, in version 2 its filter, which is 0 without the key (in version 1 that key
/// isn't there, and the filter is 0), and no other key.
pub fn runs_are_spelled()
    ensures { RunsAreSpelled }
{}

/// The refusal of a table `run` is the fault of the first of its tests that fails.
pub fn runs_are_tested()
    ensures { RunsAreTested }
{}

/// Multipliers of the fields are accepted exactly where the table `scale` has them as `[n, k]`, each
/// within its limits, and no other key.
pub fn scales_are_spelled()
    ensures { ScalesAreSpelled }
{}

/// The refusal of a table `scale` is the fault of the first of its tests that fails.
pub fn scales_are_tested()
    ensures { ScalesAreTested }
{}

/// Settings are accepted exactly where the document has their version, and a table each that spells the
/// grid, the run and the scales.
pub fn settings_are_spelled()
    ensures { SettingsAreSpelled }
{}

/// The refusal of a document's settings is the fault of the first of their tests that fails: those of
/// the version, and of the tables `grid`, `run` and `scale` in this order.
pub fn settings_are_tested()
    ensures { SettingsAreTested }
{}
