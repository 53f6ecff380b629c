//! Lemmas on whole numbers that the domains share: what the cut at 2^100 keeps, products and quotients at
//! the ends of a row of numbers, halves and even bounds. There is no code here.
//!
//! It stands on nothing. The crates above cite the lemmas of `proofs/` by name; a lemma stands here where
//! it speaks of numbers alone, and in the domain's own crate where it speaks of intervals or matrices.
#![tactic(auto)]
