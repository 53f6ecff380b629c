//! Laws of flat environments, for the layers above: each holds by a call.

ghost use Rattle.sa_env.specs.Flat.{Limits};
ghost use Rattle.sa_env.specs.Laws.{IsOrdered, KeepsFair};

/// What each operation makes of fair environments is fair.
pub fn environments_stay_fair()
    ensures { (l : Limits) → KeepsFair l }
{}

/// Environments are partially ordered, the join is the least upper bound, and widening is above both.
pub fn environments_are_ordered()
    ensures { (l : Limits) → IsOrdered l }
{}
