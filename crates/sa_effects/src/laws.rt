//! The law by which the reference analysis speaks of environments: it holds by a call.

ghost use Rattle.sa_env.specs.Flat.{Limits};
ghost use Rattle.sa_flat.specs.Intervals as reference;
ghost use Rattle.sa_effects.specs.Stands.{Agree, AreLimitsOf};

/// Each operation on environments is that of the reference analysis.
pub fn environments_are_flat()
    ensures { (r : reference.Limits) (l : Limits) → AreLimitsOf r l → Agree r l }
{}
