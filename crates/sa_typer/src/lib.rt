//! Typing: from the syntax tree to the typed program, or the first refusal.
//!
//! It stands on the state of `sa_scopes`, the operands of `sa_operands` and the declarations of `sa_declarations`, and walks
//! over statements and items. `specs/` says what each form is typed as and which refusals it has; the code walks the tree once,
//! keeps all refusals, and never stops at one. The layer above calls `type_unit` alone: its clauses say which program or which
//! refusal is answered, and that a program is a typed one.
#![tactic(auto)]

mod bodies;
mod body;
mod fault;
mod laws;
mod statement;
mod unit;

pub use fault::TypeFault;
pub use laws::{accepts_the_rest, refuses_the_least};
pub use unit::type_unit;
