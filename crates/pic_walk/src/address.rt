//! Where a value stands in a document, and the faults that name it.

ghost use Rattle.std.specs.Prelude.{◌≡◌, None, IfOk, OnOk, string_bytes};
ghost use Rattle.pic_walk.specs.Path.{key_at, element_at, with_index, path_of};
ghost use Rattle.pic_walk.specs.Walk.{IsFault};
ghost use Rattle.pic_walk.specs.declared.fault.Fault.TheVariants.{Unknown, Missing, Kind, Limit, Name};

use crate::fault::{Fault, WalkStop};
use crate::key_path::KeyPath;
use crate::limits::Limits;
use std::alloc::{AllocError, Global};
use std::fmt::Write;

/// Where a value stands: a key of a table, or an element of the array there, or an element of that
/// element. Its path is written out only where a fault names it.
#[derive(Clone, Copy)]
pub struct Address<'a> {
    pub table: &'a str,
    pub key: &'a str,
    pub row: Option<usize>,
    pub column: Option<usize>,
}

impl<'a> Address<'a> {
    /// The address of a key in the table at a path; the document's own table has the path "".
    #[tactic(auto, unfolding(crate::specs::Path::path_of))]
    pub fn new(table: &'a str, key: &'a str) -> Address<'a>
        ensures path { path_of result ≡ key_at table.now key.now }
        ensures whole { result.row ≡ None }
        ensures plain { result.column ≡ None }
    {
        Address {
            table,
            key,
            row: None,
            column: None,
        }
    }

    /// The address of an element of the array here.
    #[tactic(auto, unfolding(crate::specs::Path::path_of))]
    pub fn element(self, i: usize) -> Address<'a>
        requires { self.column ≡ None }
        ensures path { path_of result ≡ element_at (path_of self.entry) i }
        ensures row { self.entry.row ≡ None → result.column ≡ None }
    {
        match self.row {
            None => Address {
                row: Some(i),
                ..self
            },
            Some(_) => Address {
                column: Some(i),
                ..self
            },
        }
    }

    /// The path of the address.
    #[tactic(auto, unfolding(crate::specs::Path::path_of))]
    pub fn path(self, alloc: Global) -> Result<KeyPath, AllocError>
        ensures { IfOk result (λ p. p ≡ path_of self.entry) }
    {
        let mut text = key_text(alloc, self.table, self.key)?;
        push_index(&mut text, self.row)?;
        push_index(&mut text, self.column)?;
        Ok(KeyPath::new(text))
    }

    /// That the table of the address has a key that isn't listed, the key of the address.
    pub fn unknown_fault(self, alloc: Global) -> WalkStop
        ensures { IsFault (Unknown (path_of self.entry)) result }
    {
        match self.path(alloc) {
            Ok(path) => WalkStop::Found(Fault::Unknown { path }),
            Err(_) => WalkStop::NoMemory,
        }
    }

    /// That nothing stands at the address.
    pub fn missing_fault(self, alloc: Global) -> WalkStop
        ensures { IsFault (Missing (path_of self.entry)) result }
    {
        match self.path(alloc) {
            Ok(path) => WalkStop::Found(Fault::Missing { path }),
            Err(_) => WalkStop::NoMemory,
        }
    }

    /// That a value of another kind stands at the address.
    pub fn kind_fault(self, alloc: Global) -> WalkStop
        ensures { IsFault (Kind (path_of self.entry)) result }
    {
        match self.path(alloc) {
            Ok(path) => WalkStop::Found(Fault::Kind { path }),
            Err(_) => WalkStop::NoMemory,
        }
    }

    /// That the text at the address isn't a name that may stand there.
    pub fn name_fault(self, alloc: Global) -> WalkStop
        ensures { IsFault (Name (path_of self.entry)) result }
    {
        match self.path(alloc) {
            Ok(path) => WalkStop::Found(Fault::Name { path }),
            Err(_) => WalkStop::NoMemory,
        }
    }

    /// That the number at the address isn't within its limits.
    pub fn limit_fault(self, alloc: Global, value: i128, limits: Limits) -> WalkStop
        ensures { IsFault (Limit (path_of self.entry) value limits.low limits.high) result }
    {
        match self.path(alloc) {
            Ok(path) => WalkStop::Found(Fault::Limit {
                path,
                value,
                low: i128::from(limits.low),
                high: i128::from(limits.high),
            }),
            Err(_) => WalkStop::NoMemory,
        }
    }
}

// the path of a key in the table at a path
#[tactic(auto, unfolding(crate::specs::Path::key_at))]
fn key_text(alloc: Global, table: &str, key: &str) -> Result<String, AllocError>
    ensures { IfOk result (λ s. string_bytes s ≡ key_at table.now key.now) }
{
    let mut text = String::new(alloc);
    if !table.is_empty() {
        text.push_str(table)?;
        text.push_str(".")?;
    }
    text.push_str(key)?;
    Ok(text)
}

// adds the index, where there is one
#[tactic(auto, unfolding(crate::specs::Path::element_at))]
fn push_index(text: &mut String, index: Option<usize>) -> Result<(), AllocError>
    ensures { OnOk result (string_bytes text.new ≡ with_index index (string_bytes text.old)) }
{
    if let Some(i) = index {
        write!(text, "[{i}]")?;
    }
    Ok(())
}
