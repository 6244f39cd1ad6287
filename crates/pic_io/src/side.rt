//! The two sinks of a command, by name.

/// Which of the two sinks of a command a put failed on.
#[derive(Clone, Copy, Debug, PartialEq, Eq)]
pub enum Side {
    /// The sink that the result goes to.
    Out,
    /// The sink that the lines for the reader go to.
    Report,
}
