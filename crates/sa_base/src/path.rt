ghost use Rattle.std.specs.Prelude.{◌≡◌, [], ◌∷◌, ◌++◌, IfOk};

use crate::{OutOfMemory, Pos};
use std::alloc::Global;
use std::marker::Model;

/// The calls that lead to a place of the inlined program, outermost first, each by its position.
#[derive(Debug, Drop)]
pub struct Path {
    calls: Vec<Pos>,
}

impl Model for Path {
    ghost use Rattle.std.specs.Prelude.{List};
    ghost use Rattle.sa_base.specs.declared.pos.Pos.{Pos};

    ghost Value = { List Pos };

    ghost view = { λ p. p.calls.items };
}

impl Path {
    /// The path of `main`, which no call leads to.
    pub fn root(alloc: Global) -> Path
        ensures { result ≡ [] }
    {
        Path {
            calls: Vec::new(alloc),
        }
    }

    /// This path, and then a call at that position.
    pub fn push(&self, alloc: Global, call: Pos) -> Result<Path, OutOfMemory>
        ensures { IfOk result (λ p. p ≡ self.now ++ call ∷ []) }
    {
        let mut calls = Vec::from_slice(alloc, &self.calls)?;
        calls.push(call)?;
        Ok(Path { calls })
    }

    /// Its calls, outermost first.
    pub fn calls(&self) -> &[Pos]
        ensures { result.now ≡ self.now }
    {
        &self.calls
    }
}
