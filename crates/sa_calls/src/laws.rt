//! Laws of calls.

ghost use Rattle.sa_calls.specs.Recursion.{RanksAreThere, RankedLeadsNowhereBack};

/// Where no call leads back and each is of a function that there is, functions are ranked: each calls functions of lower rank
/// alone.
pub fn ranks_are_there()
    ensures { RanksAreThere }
{}

/// Where functions are ranked, no call leads back.
pub fn ranked_leads_nowhere_back()
    ensures { RankedLeadsNowhereBack }
{}
