//! What expressions, places and written types are typed as.
//!
//! It stands on the state of `sa_scopes`. The crates above use `expr` and `spot`, which give an operand and a place with what
//! is known of them, and `type_of`, `object_type`, `structure` and `bounds`, which stand in one cycle with them: a cast holds a
//! type, a structure holds dimensions, and these hold expressions. Each clause names the definition of the form in `specs/`. An
//! operand of which a part was refused is unknown, and nothing is refused of it further on.
#![tactic(auto)]

mod definition;
pub mod expr;
mod operand;
mod place;

pub use operand::{Operand, Root, Sort, Spot, no_object, stand_in};
pub use place::access_of;
