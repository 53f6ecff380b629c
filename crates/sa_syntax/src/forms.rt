//! Forms of a tree that typing asks for.

ghost use Rattle.std.specs.Prelude.{◌≡◌};
ghost use Rattle.sa_syntax.specs.Forms as spec;

use crate::decl::Name;
use crate::stmt::{BlockItem, Directive, Stmt};

/// Whether a statement is the wait for the clock.
fn is_wait_stmt(stmt: &Stmt) -> bool
    ensures { result ≡ spec.is_wait_stmt stmt.now }
{
    matches!(stmt, Stmt::Directive(_, Directive::Wait))
}

/// Whether an item of a block is the wait for the clock.
pub fn is_wait(item: &BlockItem) -> bool
    ensures { result ≡ spec.is_wait item.now }
{
    match item {
        BlockItem::Local(_) => false,
        BlockItem::Stmt(stmt) => is_wait_stmt(stmt),
    }
}

/// Whether a function has the name of the program's entry (ISO C 5.1.2.2.1).
pub fn is_main(name: &Name) -> bool
    ensures { result ≡ spec.is_main name.now }
{
    name.text.bytes() == "main".as_bytes()
}
