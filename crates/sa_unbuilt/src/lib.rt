//! Which forms of the language aren't analysed yet.
//!
//! It stands on `sa_syntax`. `specs/` says which forms these are and where each begins; `first_unbuilt` gives the place of the
//! first one in a tree. The top calls refuse a source that has one; typing asks for a tree that has none. The crate goes when
//! every statement is analysed.
#![tactic(auto)]

mod forms;

pub use forms::first_unbuilt;
