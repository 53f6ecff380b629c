//! What a local begins with.

use sa_typed::Start;
use sqlite_items::Items;

/// What a local begins with, and the initial values of its variable.
#[derive(Drop)]
pub struct Beginning {
    pub start: Start,
    pub initial: Items<i128>,
}
