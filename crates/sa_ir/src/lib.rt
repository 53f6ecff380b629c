//! The lowered program: functions inlined by call path into numbered cells and loops.
//!
//! It stands on `sa_base` and `sa_typed` alone. `specs/` says which cells there are, how they are numbered and named, what each
//! loop shows, and what the lowered program of a typed one is. Every place of a lowered program is a first cell with the indices
//! that aren't folded into it; no variable, field, call or parameter is left in it.
#![tactic(auto)]

mod cells;
mod expr;
mod frame;
mod ir;
mod lowering;
mod names;
mod node;
mod places;
mod simple;
mod sizes;
mod slots;
mod table;

pub use cells::{push_call, push_home, result_of};
pub use expr::{IrExpr, IrLink, IrPlace, Row};
pub use frame::{Frame, Kept, Reference, Span, Target};
pub use ir::{Cell, Ends, Ir, LoopInfo};
pub use lowering::{kept_rows, lower_expr, lower_place};
pub use names::push_pos;
pub use node::{IrAssign, IrGroup, Node};
pub use places::{Cursor, Stepped, base, field, inner, own_first, stride, whole};
pub use simple::{lower_simple, num_of, object_ends, whole_cells};
pub use std::alloc::AllocError as OutOfMemory;
pub use table::{Section, Sections, Table, number};
