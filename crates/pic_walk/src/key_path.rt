//! The path of a key or of an element, as text.

ghost use Rattle.std.specs.Prelude.{◌≡◌, string_bytes};

use std::marker::Model;

/// The path of a key or of an element, as `grid.cells[0]`: keys joined by points, with `[i]` for the
/// element `i`, from 0. A key stands in it as it is.
#[derive(Debug, Drop)]
pub struct KeyPath {
    text: String,
}

impl Model for KeyPath {
    ghost use Rattle.std.specs.Prelude.{List, ℕ, string_bytes};

    ghost Value = { List ℕ };

    ghost view = { λ a. string_bytes a.text };
}

impl KeyPath {
    /// The path with this text.
    pub fn new(text: String) -> KeyPath
        ensures { result ≡ string_bytes text }
    {
        KeyPath { text }
    }

    pub fn as_str(&self) -> &str
        ensures { result.now ≡ self.now }
    {
        self.text.as_str()
    }
}
