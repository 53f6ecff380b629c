//! What typing has seen so far.

ghost use Rattle.std.specs.Prelude.{◌≡◌};
ghost use Rattle.sa_scopes.specs.Refusals.{is_before, lesser, least_of};
ghost use Rattle.sa_scopes.specs.Typing.{Yields, refuse, refuse_if};

use crate::scope::Scope;
use crate::structs::Structs;
use crate::types::{Named, Tagged};
use sa_base::{OutOfMemory, Pos};
use sa_typed::{Input, Var};
use sqlite_items::Items;

/// A refusal by the number of its rule.
#[derive(Clone, Copy, Debug, PartialEq, Eq)]
pub struct Fault {
    pub pos: Pos,
    pub rule: u8,
}

impl Fault {
    /// Whether it stands before another one in the text, or at one place has the lesser number.
    #[tactic(auto, unfolding(crate::specs::Refusals::is_before))]
    fn is_before(self, other: Fault) -> bool
        ensures { result ≡ is_before self other }
    {
        self.pos.line < other.pos.line
            || (self.pos.line == other.pos.line
                && (self.pos.col < other.pos.col
                    || (self.pos.col == other.pos.col && self.rule < other.rule)))
    }
}

/// The lesser of two refusals, of which the first may be none.
pub fn lesser(before: Option<Fault>, fault: Fault) -> Fault
    ensures { result ≡ lesser before fault }
{
    match before {
        None => fault,
        Some(before) => {
            if before.is_before(fault) {
                before
            } else {
                fault
            }
        }
    }
}

/// The least of all refusals, where there is one.
pub fn least_of(faults: &[Fault]) -> Option<Fault>
    ensures { result ≡ least_of faults.now }
{
    let mut least = None;
    for fault in faults {
        least = Some(lesser(least, *fault));
    }
    least
}

/// The names and tags that are visible, what is declared so far, the literals beside comparisons, and all refusals. Variables
/// and inputs stand by their numbers, refusals in the order of the walk. After want of memory a part of a step may be in it, and
/// it isn't used again.
#[derive(Drop)]
pub struct Typer<'a> {
    pub names: Scope<'a, Named>,
    pub tags: Scope<'a, Tagged>,
    pub structs: Structs<'a>,
    pub vars: Items<Var>,
    pub inputs: Items<Input>,
    pub thresholds: Items<u64>,
    pub faults: Items<Fault>,
}

impl Typer<'_> {
    /// Notes that a rule is broken at a place.
    #[tactic(auto, unfolding(crate::specs::Typing::refused))]
    pub fn refuse(&mut self, rule: u8, pos: Pos) -> Result<(), OutOfMemory>
        ensures { Yields (refuse rule pos self.old) result self.new }
    {
        self.faults.push(Fault { pos, rule })
    }

    /// Notes that a rule is broken at a place, if it is.
    pub fn refuse_if(&mut self, broken: bool, rule: u8, pos: Pos) -> Result<(), OutOfMemory>
        ensures { Yields (refuse_if broken rule pos self.old) result self.new }
    {
        if broken {
            self.refuse(rule, pos)
        } else {
            Ok(())
        }
    }
}
