//! What the table keeps, and what contracts see of a pass.

use sa_core::{Event, Job};
use std::collections::LinkedList;

/// What a board is told once: the job, and how many seats there may be.
#[derive(Drop)]
pub struct Terms<W> {
    pub job: Job<W>,
    pub seats: u32,
}

/// The book while the board is open: one event for each entry, in order, and the merge of the filed parts.
#[derive(Drop)]
pub struct Pages<P> {
    pub history: Vec<Event>,
    pub merged: P,
}

/// An entry as its view keeps it, with the ticket under which it was filed. No value of it is made.
pub struct Slip {
    pub ticket: u64,
    pub event: Event,
}

/// What a pass knows. No value of it is made.
pub struct View<W, P> {
    /// The terms of the board, or none once the pass was met into another one.
    pub terms: Option<Terms<W>>,
    /// The number of its seat.
    pub seat: u64,
    /// The seat numbers that it gathered, its own among them.
    pub gathered: LinkedList<u64>,
    /// How many spare numbers it has: they are the last ones below the number of seats.
    pub spares: u64,
    /// The branch that it holds.
    pub held: Option<u64>,
    /// The seat numbers that drew past the last branch.
    pub over: LinkedList<u64>,
    pub ticket: Option<u64>,
    /// The book that it looked at when its turn came.
    pub seen: Option<Pages<P>>,
    /// What it filed and gave up, in order.
    pub entries: LinkedList<Slip>,
}
