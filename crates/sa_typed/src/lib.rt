//! The typed program: what typing makes of a source, and what a typed program means.
//!
//! It stands on `sa_base` and the lemmas of `sa_numbers`. `specs/` has the meaning of C for these programs: how a number is converted and an operator
//! applied (`Arithmetic`), how an expression is evaluated over a store, a tape and a clock (`Evaluation`), what an execution
//! does (`Executions`), which cells a program has (`Cells`) and when a line of a report is true (`Lines`). Nothing here knows
//! an interval. `Ranges` says in which numbers inputs lie as the clock goes on.
#![tactic(auto)]

mod arithmetic;
mod constants;
mod expr;
mod laws;
mod program;
mod ranges;
mod shape;
mod stmt;

pub use arithmetic::{
    as_num, bits, common, converted, is_of, is_signed, literal_type, promoted, wrapped,
};
pub use constants::{fixed_index, is_constant};
pub use expr::{Access, Expr, Link, Operator, Prefix, Step};
pub use laws::{calls_end, goes_on, never_breaks, typed_programs_run};
pub use program::{Func, Home, Input, Param, Place, Program, Var};
pub use ranges::Ranges;
pub use shape::{FieldDef, Part, Plain, Shape, StructDef};
pub use stmt::{Arg, Destination, Group, Label, LoopKind, Simple, Start, Stmt};
