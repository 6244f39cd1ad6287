//! Laws of the filter. Each is the contract of a function that does nothing.

ghost use Rattle.pic_filter.specs.Smoothing.{DivergenceOfSmoothed, SmoothedSum, SmoothedTotal};

/// The divergence of a filtered lattice is the filtered divergence, at every node of every grid. So
/// a current that is filtered changes E as the filtered charge wants it.
pub fn divergence_of_smoothed()
    ensures { DivergenceOfSmoothed }
{}

/// A sum filtered is the sum of both filtered.
pub fn smoothed_sum()
    ensures { SmoothedSum }
{}

/// Over the whole grid the filter makes 64 times as much of everything: no charge is lost.
pub fn smoothed_total()
    ensures { SmoothedTotal }
{}
