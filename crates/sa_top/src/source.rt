//! From the bytes of a source to its program.

ghost use Rattle.std.specs.Prelude.{◌≤◌, IfOk, IfErr, length};
ghost use Rattle.sa_typed.specs.Cells.{cells};
ghost use Rattle.sa_typed.specs.WellTyped.{IsTyped};
ghost use Rattle.sa_top.specs.Accepted.{IsAccepted};
ghost use Rattle.sa_top.specs.Rejections.{IsRejected};

use sa_base::{Code, Limit, OutOfMemory, Refusal};
use sa_parser::{ParseFault, parse};
use sa_tokens::{TokenFault, end_of, tokens};
use sa_typed::Program;
use sa_typer::{TypeFault, type_unit};
use sa_unbuilt::first_unbuilt;
use std::alloc::Global;

/// Why a source has no program.
#[derive(Clone, Copy, Debug, PartialEq, Eq)]
pub enum Rejection {
    /// It is refused.
    Refused(Refusal),
    /// It exceeds a limit.
    Above(Limit),
    /// There wasn't memory enough.
    NoMemory,
}

impl From<TokenFault> for Rejection {
    ghost use Rattle.std.specs.Prelude.{◌≡◌};
    ghost use Rattle.sa_top.specs.Rejections.{by_tokens};

    ghost from_gives = { λ fault e. e ≡ by_tokens fault };

    fn from(fault: TokenFault) -> Self {
        let (code, pos) = match fault {
            TokenFault::BadByte(pos) => (Code::BadByte, pos),
            TokenFault::BadNumber(pos) => (Code::BadNumber, pos),
            TokenFault::OpenComment(pos) => (Code::OpenComment, pos),
            TokenFault::Directive(pos) => (Code::Directive, pos),
            TokenFault::TooManyTokens => return Rejection::Above(Limit::Tokens),
            TokenFault::OutOfMemory => return Rejection::NoMemory,
        };
        Rejection::Refused(Refusal { code, pos })
    }
}

impl From<ParseFault> for Rejection {
    ghost use Rattle.std.specs.Prelude.{◌≡◌};
    ghost use Rattle.sa_top.specs.Rejections.{by_parser};

    ghost from_gives = { λ fault e. e ≡ by_parser fault };

    fn from(fault: ParseFault) -> Self {
        match fault {
            ParseFault::Syntax(pos) => Rejection::Refused(Refusal {
                code: Code::Syntax,
                pos,
            }),
            ParseFault::TooDeep(_) => Rejection::Above(Limit::Nesting),
            ParseFault::OutOfMemory => Rejection::NoMemory,
        }
    }
}

impl From<TypeFault> for Rejection {
    ghost use Rattle.std.specs.Prelude.{◌≡◌};
    ghost use Rattle.sa_top.specs.Rejections.{by_typer};

    ghost from_gives = { λ fault e. e ≡ by_typer fault };

    fn from(fault: TypeFault) -> Self {
        match fault {
            TypeFault::Refused(refusal) => Rejection::Refused(refusal),
            TypeFault::TooMany(limit) => Rejection::Above(limit),
            TypeFault::OutOfMemory => Rejection::NoMemory,
        }
    }
}

impl From<OutOfMemory> for Rejection {
    ghost use Rattle.std.specs.Prelude.{◌≡◌};
    ghost use Rattle.sa_top.specs.declared.source.Rejection.TheVariants.{NoMemory};

    ghost from_gives = { λ _ e. e ≡ NoMemory };

    fn from(_: OutOfMemory) -> Self {
        Rejection::NoMemory
    }
}

/// The program of a source within the limit. Its tokens and its tree are given back before it returns.
pub fn read_source(alloc: Global, source: &[u8]) -> Result<Program, Rejection>
    requires { length source.now ≤ 4194304 }
    ensures accepted { IfOk result (IsAccepted source.now) }
    ensures typed { IfOk result IsTyped }
    ensures small { IfOk result (λ p. length (cells p) ≤ 65536) }
    ensures rejected { IfErr result (IsRejected source.now) }
{
    let tokens = tokens(alloc, source)?;
    let end = end_of(source);
    let unit = parse(alloc, &tokens, end)?;
    if let Some(pos) = first_unbuilt(&unit) {
        return Err(Rejection::Refused(Refusal {
            code: Code::Unsupported,
            pos,
        }));
    }
    Ok(type_unit(alloc, &unit, end)?)
}
