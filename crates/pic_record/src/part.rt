//! A part of a list that is read.

/// So many elements, behind the first ones.
#[derive(Clone, Copy)]
pub struct Part {
    pub first: u32,
    pub count: u32,
}
