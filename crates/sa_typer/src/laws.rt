//! Laws of the refusals.

ghost use Rattle.sa_typer.specs.RefusalLaws.{AcceptsTheRest, RefusesTheLeast};

/// The refusal that is answered is one of all refusals of the text, and none of them is before it: by its place, and at one place
/// by the number of its rule.
pub fn refuses_the_least()
    ensures { RefusesTheLeast }
{}

/// A program is answered, or that there are too many cells, exactly where a text has no refusal.
pub fn accepts_the_rest()
    ensures { AcceptsTheRest }
{}
