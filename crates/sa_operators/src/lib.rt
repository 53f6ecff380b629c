//! Operators and conversions of C on intervals, with the alarms that they may raise.
//!
//! It stands on the arithmetic of typed programs and on intervals. `specs/Operators.antt` has each rule; the calls give their
//! rules, and their contracts say besides that the interval holds each result of operands that lie in theirs, and that an
//! error is among the alarms.
#![tactic(auto)]

mod operators;

pub use operators::{
    as_span, converted_span, note_conversion, note_operator, note_prefix, operator_span,
    prefix_span, range_of,
};
