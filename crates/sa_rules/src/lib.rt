//! What typing refuses, code by code, as laws over the definition of typing.
//!
//! It stands on the definitions of typing alone and has no code. `specs/Events.antt` and `specs/Texts.antt` write a text as
//! what it does with names, tags, types, places, initialisers and the wait, in its order; `specs/Sight.antt` says what is visible
//! after some of it; `specs/Rules.antt` has one short rule for each code. The laws say that the refusals with a code stand
//! exactly where its rule says. Code 5 has no such rule: `specs/Sites.antt` has the only places at which it can stand. A change
//! of what is refused changes a rule here besides the definition of typing.
#![tactic(auto)]

mod laws;

pub use laws::{
    constants_are_constant, copies_are_of_one_structure, dimensions_are_in_range, fields_are_there,
    initialisers_fit, left_sides_are_free, names_are_declared, names_are_declared_once,
    operands_are_refused_at_their_sites, qualifiers_stand_in_place, there_is_a_main,
    types_are_types, waits_stand_in_place,
};
