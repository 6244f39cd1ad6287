//! Laws of what a run begins with: of the table `field` and of the species.

ghost use Rattle.pic_deck_laws.specs.FieldTable.{FieldsAreSpelled, FieldsAreTested};
ghost use Rattle.pic_deck_laws.specs.SpeciesTable.{SpeciesAreSpelled};
ghost use Rattle.pic_deck_laws.specs.SpeciesTests.{SpeciesAreTested};

/// On the cells of a grid, the fields of a deck are accepted exactly where the value of `field` is a
/// table that has at `e` and `b` their uniform parts, or 0 and that key isn't there, at `edges` and
/// `faces` their rows, or none as well, and no other key; rows are of the grid's cells, and not too many.
pub fn fields_are_spelled()
    ensures { FieldsAreSpelled }
{}

/// The refusal of `field` is the fault of the first of its tests that fails: its kind and each of its
/// keys, then `e`, `b`, and `edges` and `faces`, row by row and how many they are.
pub fn fields_are_tested()
    ensures { FieldsAreTested }
{}

/// In the box of a grid, species are accepted exactly where the value of `species` is an array of as
/// many tables, 16 at most, each of which has the name, the charge, the mass, the two multipliers and
/// one source alone of its species, and no other key: its name is new, its numbers are within their
/// limits, a displaced one has the opposite charge, and all particles so far aren't too many.
pub fn species_are_spelled()
    ensures { SpeciesAreSpelled }
{}

/// In the box of a grid, the refusal of `species` is the fault of the first of its tests that fails: its
/// kind and how many tables it has, and then, table by table, its kind and each of its keys, the name, the charge, the
/// mass, `kick` and `turn`, the sources, the value of the one that counts, and how many particles there
/// are so far.
pub fn species_are_tested()
    ensures { SpeciesAreTested }
{}
