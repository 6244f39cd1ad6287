//! A law of the command line. It is the contract of a function that does nothing.

ghost use Rattle.pic_line.specs.Taken.{CommandsAreTaken};

/// Words are a command exactly where `clap` takes them: where its definition has no fault, the numbers
/// that the words give, or that stand for them, lie in their ranges, and what is required stands there.
pub fn commands_are_taken()
    ensures { CommandsAreTaken }
{}
