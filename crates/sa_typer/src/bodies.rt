//! What bodies are typed as.

use sa_base::Text;
use sa_scopes::types::Element;
use sa_typed::Stmt;
use sqlite_items::Items;

/// The block of `main` as far as it is typed, and whether the clock loop was there.
#[derive(Drop)]
pub struct Body {
    pub stmts: Items<Stmt>,
    pub clock: bool,
}

/// `main`: its name, the type of its result, and its block.
#[derive(Drop)]
pub struct Entry {
    pub name: Text,
    pub result: Element,
    pub body: Body,
}
