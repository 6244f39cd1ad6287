//! Laws of Gauss's check. Each is the contract of a function that does nothing.

ghost use Rattle.pic_charge.specs.Gauss.{NoBreakIsGauss, BreakIsWhereGaussFails};

/// Where the nodes hold the charge, no break is found exactly where E meets Gauss's law.
pub fn no_break_is_gauss()
    ensures { NoBreakIsGauss }
{}

/// Where the nodes hold the charge, a break that is found is the least node where E doesn't meet
/// Gauss's law, with both numbers.
pub fn break_is_where_gauss_fails()
    ensures { BreakIsWhereGaussFails }
{}
