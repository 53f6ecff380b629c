ghost use Rattle.std.specs.Prelude.{◌≡◌, ◌<◌};
ghost use Rattle.sa_dbm.specs.Tables.{bar};

/// The other node of the same variable.
#[tactic(auto, unfolding(crate::specs::Tables::bar))]
pub fn bar(node: usize) -> usize
    requires { node < 16 }
    ensures { result ≡ bar node }
{
    if node % 2 == 0 { node + 1 } else { node - 1 }
}
