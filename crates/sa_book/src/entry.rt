//! What a pass files.

/// How a branch ends: with its part, or given up without one.
#[derive(Drop)]
pub enum Filing<P> {
    Filed(P),
    Gave,
}

/// One entry of the book: the seat that files, its branch, and how the branch ends.
#[derive(Drop)]
pub struct Entry<P> {
    pub seat: u32,
    pub branch: u32,
    pub what: Filing<P>,
}
