//! Laws of lowered programs.

ghost use Rattle.sa_lower.specs.Counting.{LengthsAreCounts};

/// A lowered program has as many cells and loops as are counted of the typed one.
pub fn lengths_are_counts()
    ensures { LengthsAreCounts }
{}
