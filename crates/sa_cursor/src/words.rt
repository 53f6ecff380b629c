//! Which words and marks are operators, qualifiers and types.

ghost use Rattle.std.specs.Prelude.{◌≡◌, ◌&&◌, Some, None};
ghost use Rattle.sa_syntax.specs.Words as words;
ghost use Rattle.sa_syntax.specs.ReadExpr as read;
ghost use Rattle.sa_syntax.specs.ReadStmt as stmt;

use sa_syntax::{Compound, Operator, Prefix, Qualifier, ScalarWord, Update};
use sa_tokens::{Keyword, Punct};

/// The operator before an operand (ISO C 6.5.3.3).
pub fn prefix_of(mark: Punct) -> Option<Prefix>
    ensures { result ≡ words.prefix_of mark }
{
    match mark {
        Punct::Minus => Some(Prefix::Minus),
        Punct::Plus => Some(Prefix::Plus),
        Punct::Tilde => Some(Prefix::Complement),
        Punct::Bang => Some(Prefix::Not),
        _ => None,
    }
}

/// The binary operator (ISO C 6.5.5 to 6.5.14).
pub fn operator_of(mark: Punct) -> Option<Operator>
    ensures { result ≡ words.operator_of mark }
{
    match mark {
        Punct::BarBar => Some(Operator::Or),
        Punct::AmpersandAmpersand => Some(Operator::And),
        Punct::Bar => Some(Operator::BitOr),
        Punct::Caret => Some(Operator::BitXor),
        Punct::Ampersand => Some(Operator::BitAnd),
        Punct::EqualEqual => Some(Operator::Equal),
        Punct::BangEqual => Some(Operator::NotEqual),
        Punct::Less => Some(Operator::Less),
        Punct::LessEqual => Some(Operator::LessEqual),
        Punct::Greater => Some(Operator::Greater),
        Punct::GreaterEqual => Some(Operator::GreaterEqual),
        Punct::ShiftLeft => Some(Operator::ShiftLeft),
        Punct::ShiftRight => Some(Operator::ShiftRight),
        Punct::Plus => Some(Operator::Plus),
        Punct::Minus => Some(Operator::Minus),
        Punct::Star => Some(Operator::Times),
        Punct::Slash => Some(Operator::Divide),
        Punct::Percent => Some(Operator::Remainder),
        _ => None,
    }
}

/// Its level, from the tightest, 1, to the loosest, 10.
pub fn level_of(op: Operator) -> usize
    ensures { result ≡ words.level_of op }
{
    match op {
        Operator::Times | Operator::Divide | Operator::Remainder => 1,
        Operator::Plus | Operator::Minus => 2,
        Operator::ShiftLeft | Operator::ShiftRight => 3,
        Operator::Less | Operator::LessEqual | Operator::Greater | Operator::GreaterEqual => 4,
        Operator::Equal | Operator::NotEqual => 5,
        Operator::BitAnd => 6,
        Operator::BitXor => 7,
        Operator::BitOr => 8,
        Operator::And => 9,
        Operator::Or => 10,
    }
}

/// The loosest level.
pub const LOOSEST: usize = 10;

pub fn qualifier_of(key: Keyword) -> Option<Qualifier>
    ensures { result ≡ words.qualifier_of key }
{
    match key {
        Keyword::Const => Some(Qualifier::Const),
        Keyword::Volatile => Some(Qualifier::Volatile),
        Keyword::Static => Some(Qualifier::Static),
        _ => None,
    }
}

pub fn scalar_of(key: Keyword) -> Option<ScalarWord>
    ensures { result ≡ words.scalar_of key }
{
    match key {
        Keyword::Char => Some(ScalarWord::Char),
        Keyword::Int => Some(ScalarWord::Int),
        Keyword::Long => Some(ScalarWord::Long),
        Keyword::Short => Some(ScalarWord::Short),
        Keyword::Signed => Some(ScalarWord::Signed),
        Keyword::Unsigned => Some(ScalarWord::Unsigned),
        _ => None,
    }
}

/// The operator of a compound assignment (ISO C 6.5.16.2).
pub fn compound_of(mark: Punct) -> Option<Compound>
    ensures { result ≡ words.compound_of mark }
{
    match mark {
        Punct::PlusEqual => Some(Compound::Plus),
        Punct::MinusEqual => Some(Compound::Minus),
        Punct::StarEqual => Some(Compound::Times),
        Punct::SlashEqual => Some(Compound::Divide),
        Punct::PercentEqual => Some(Compound::Remainder),
        Punct::ShiftLeftEqual => Some(Compound::ShiftLeft),
        Punct::ShiftRightEqual => Some(Compound::ShiftRight),
        Punct::AmpersandEqual => Some(Compound::BitAnd),
        Punct::CaretEqual => Some(Compound::BitXor),
        Punct::BarEqual => Some(Compound::BitOr),
        _ => None,
    }
}

/// `++` or `--`.
pub fn update_of(mark: Punct) -> Option<Update>
    ensures { result ≡ words.update_of mark }
{
    match mark {
        Punct::PlusPlus => Some(Update::Increment),
        Punct::MinusMinus => Some(Update::Decrement),
        _ => None,
    }
}
