//! What expressions and places are typed as.

ghost use Rattle.std.specs.Prelude.{◌≡◌, IfOk};
ghost use Rattle.sa_operands.specs.Operands as spec;
ghost use Rattle.sa_operands.specs.declared.operand.Rest.TheVariants.{Links};
ghost use Rattle.sa_scopes.specs.Typing.{Yields};

use sa_base::{Num, OutOfMemory, Pos};
use sa_scopes::constant::{Value, literal_value, working};
use sa_scopes::typer::Typer;
use sa_scopes::types::Element;
use sa_typed::{
    Access, Expr, Link, Operator, Prefix, Shape, Step, common, is_of, literal_type, promoted,
};
use sqlite_items::{Boxed, Items};
use std::alloc::Global;

/// What an expression is.
#[derive(Drop)]
pub enum Operand {
    /// A number: the typed expression, its type, and what is known of its value.
    Number(Expr, Num, Value),
    /// A structure: its place, its number, whether all indices there are constant expressions, and the place of its variable's name.
    Struct(Access, u32, bool, Pos),
    /// An array, with the place of its variable's name.
    Array(Pos),
    /// A part of it was refused, and its type isn't known.
    Unknown,
}

/// The sort of an operand.
#[derive(Clone, Copy, Debug, PartialEq, Eq)]
pub enum Sort {
    Number(Num),
    /// A structure or an array.
    Object,
    Unknown,
}

/// What an operator makes of the operands beside it.
#[derive(Clone, Copy, Debug, PartialEq, Eq)]
pub enum Join {
    And,
    Or,
    /// An operator that evaluates both of its operands.
    Link(Operator),
}

/// What stands behind the first operand of a chain: links, or the operands of `&&` or `||`.
#[derive(Drop)]
pub enum Rest {
    Links(Items<Link>),
    And(Items<Expr>),
    Or(Items<Expr>),
}

/// A chain of operators as far as it is typed. What is no number has a stand-in as its first operand.
#[derive(Drop)]
pub struct Left {
    pub sort: Sort,
    pub first: Expr,
    pub rest: Rest,
    pub value: Value,
}

/// What a place begins with.
#[derive(Clone, Copy, Debug, PartialEq, Eq)]
pub enum Root {
    /// A variable, by its number.
    Variable(u32),
    /// An input, by its number, and its type.
    Input(u32, Num),
    /// The name was refused.
    Nothing,
}

/// A place as far as it is typed: what it begins with and where that name stands; the shape of the variable or of the field
/// that was stepped to last, where that is known, and how many of its dimensions were stepped into since; whether it may not be
/// assigned to, the steps, and whether all indices are constant expressions.
#[derive(Drop)]
pub struct Spot {
    pub root: Root,
    pub name: Pos,
    pub shape: Option<Shape>,
    pub depth: usize,
    pub locked: bool,
    pub steps: Items<Step>,
    pub fixed: bool,
}

/// What stands in for an expression.
pub fn stand_in() -> Expr
    ensures { result ≡ spec.stand_in }
{
    Expr::Number(0, Num::I32)
}

/// A number of which nothing is known.
pub fn some_number() -> Operand
    ensures { result ≡ spec.some_number }
{
    Operand::Number(stand_in(), Num::I32, Value::Varies)
}

impl Sort {
    /// Whether it is a structure or an array.
    pub fn is_object(self) -> bool
        ensures { result ≡ spec.is_object self }
    {
        matches!(self, Sort::Object)
    }
}

impl Operand {
    /// Its sort.
    pub fn sort(&self) -> Sort
        ensures { result ≡ spec.sort_of self.now }
    {
        match self {
            Operand::Number(_, num, _) => Sort::Number(*num),
            Operand::Struct(_, _, _, _) | Operand::Array(_) => Sort::Object,
            Operand::Unknown => Sort::Unknown,
        }
    }

    /// What is known of its value.
    pub fn known_value(&self) -> Value
        ensures { result ≡ spec.known_value self.now }
    {
        match self {
            Operand::Number(_, _, value) => *value,
            _ => Value::Varies,
        }
    }

    /// The type of its value; what is no number counts as an `int`.
    fn num(&self) -> Num
        ensures { result ≡ spec.num_or self.now }
    {
        match self {
            Operand::Number(_, num, _) => *num,
            _ => Num::I32,
        }
    }

    /// Its expression, or what stands in for one.
    pub fn into_expr(self) -> Expr
        ensures { result ≡ spec.expr_or self }
    {
        match self {
            Operand::Number(expr, _, _) => expr,
            _ => stand_in(),
        }
    }
}

/// Refuses a structure or an array where a number is needed and no operator takes it.
pub fn no_object(typer: &mut Typer, operand: &Operand) -> Result<(), OutOfMemory>
    ensures { Yields (spec.no_object operand.now typer.old) result typer.new }
{
    match operand {
        Operand::Struct(_, _, _, pos) | Operand::Array(pos) => typer.refuse(5, *pos),
        Operand::Number(_, _, _) | Operand::Unknown => Ok(()),
    }
}

// ---- literals

/// The number of a literal of that type. No text has one that its type doesn't hold; such a one counts as 0.
fn literal_number(num: Num, value: u64) -> u64
    ensures { result ≡ spec.literal_number num value }
{
    if is_of(num, i128::from(value)) {
        value
    } else {
        0
    }
}

#[tactic(auto, unfolding(crate::specs::Operands::literal))]
pub fn literal(value: u64, unsigned: bool, longs: u8, decimal: bool) -> Operand
    ensures { result ≡ spec.literal value unsigned longs decimal }
{
    let num = literal_type(value, unsigned, longs, decimal);
    Operand::Number(
        Expr::Number(literal_number(num, value), num),
        num,
        literal_value(num, value),
    )
}

/// The value of a literal that stands by itself, in brackets or not, after one `-` where that flag is set.
#[tactic(auto, using(crate::proofs::OperandRows::alone_rows))]
fn by_itself(minus: bool, e: &sa_syntax::Expr) -> Option<u64>
    ensures { result ≡ spec.by_itself minus e.now }
{
    match e {
        sa_syntax::Expr::Number(value, _, _, _, _) => Some(*value),
        sa_syntax::Expr::Bracket(_, inner) => by_itself(minus, inner.get()),
        sa_syntax::Expr::Prefix(op, _, operand) => match op {
            sa_syntax::Prefix::Minus => {
                if minus {
                    by_itself(false, operand.get())
                } else {
                    None
                }
            }
            _ => None,
        },
        sa_syntax::Expr::Place(_)
        | sa_syntax::Expr::Cast(_, _, _)
        | sa_syntax::Expr::Chain(_, _)
        | sa_syntax::Expr::Choice(_, _, _, _) => None,
    }
}

fn is_comparison(op: sa_syntax::Operator) -> bool
    ensures { result ≡ spec.is_comparison op }
{
    matches!(
        op,
        sa_syntax::Operator::Less
            | sa_syntax::Operator::LessEqual
            | sa_syntax::Operator::Greater
            | sa_syntax::Operator::GreaterEqual
            | sa_syntax::Operator::Equal
            | sa_syntax::Operator::NotEqual
    )
}

fn add_threshold(typer: &mut Typer, literal: Option<u64>) -> Result<(), OutOfMemory>
    ensures { Yields (spec.with_threshold literal typer.old) result typer.new }
{
    match literal {
        None => Ok(()),
        Some(value) => typer.thresholds.push(value),
    }
}

/// Notes the literal that an operand of a comparison is by itself.
#[tactic(auto, unfolding(crate::specs::Operands::beside))]
pub fn beside(
    typer: &mut Typer,
    op: sa_syntax::Operator,
    operand: &sa_syntax::Expr,
) -> Result<(), OutOfMemory>
    ensures { Yields (spec.beside op operand.now typer.old) result typer.new }
{
    if is_comparison(op) {
        add_threshold(typer, by_itself(true, operand))
    } else {
        Ok(())
    }
}

// ---- prefixes and casts

pub fn prefix_of(op: sa_syntax::Prefix) -> Prefix
    ensures { result ≡ spec.prefix_of op }
{
    match op {
        sa_syntax::Prefix::Minus => Prefix::Minus,
        sa_syntax::Prefix::Plus => Prefix::Plus,
        sa_syntax::Prefix::Complement => Prefix::Complement,
        sa_syntax::Prefix::Not => Prefix::Not,
    }
}

/// The result of a cast or an operator at that place whose operand is of a sort other than a number.
fn no_number(typer: &mut Typer, pos: Pos, sort: Sort) -> Result<Operand, OutOfMemory>
    ensures { Yields (spec.no_number pos sort typer.old) result typer.new }
{
    typer.refuse_if(sort.is_object(), 5, pos)?;
    Ok(some_number())
}

/// An operator, which works in that type, before a number.
fn prefixed_number(
    alloc: Global,
    op: Prefix,
    pos: Pos,
    expr: Expr,
    num: Num,
    value: Value,
) -> Result<Operand, OutOfMemory>
    ensures { IfOk result (λ o. o ≡ spec.prefixed_number op pos expr num value) }
{
    let operand = Boxed::new(alloc, expr)?;
    Ok(Operand::Number(
        Expr::Prefix(op, pos, num, operand),
        op.result_type(num),
        value.prefixed(op),
    ))
}

fn cast_number(
    alloc: Global,
    pos: Pos,
    num: Num,
    expr: Expr,
    value: Value,
) -> Result<Operand, OutOfMemory>
    ensures { IfOk result (λ o. o ≡ spec.cast_number pos num expr value) }
{
    let operand = Boxed::new(alloc, expr)?;
    Ok(Operand::Number(Expr::Cast(pos, num, operand), num, value.cast(num)))
}

/// An operator before its operand.
pub fn prefixed(
    alloc: Global,
    typer: &mut Typer,
    op: Prefix,
    pos: Pos,
    operand: Operand,
) -> Result<Operand, OutOfMemory>
    ensures { Yields (spec.prefixed op pos operand typer.old) result typer.new }
{
    match operand {
        Operand::Number(expr, num, value) => {
            prefixed_number(alloc, op, pos, expr, promoted(num), value)
        }
        Operand::Struct(_, _, _, _) | Operand::Array(_) => no_number(typer, pos, Sort::Object),
        Operand::Unknown => no_number(typer, pos, Sort::Unknown),
    }
}

fn cast_to(
    alloc: Global,
    typer: &mut Typer,
    pos: Pos,
    num: Num,
    operand: Operand,
) -> Result<Operand, OutOfMemory>
    ensures { Yields (spec.cast_to pos num operand typer.old) result typer.new }
{
    match operand {
        Operand::Number(expr, _, value) => cast_number(alloc, pos, num, expr, value),
        Operand::Struct(_, _, _, _) | Operand::Array(_) => no_number(typer, pos, Sort::Object),
        Operand::Unknown => no_number(typer, pos, Sort::Unknown),
    }
}

/// A cast to what is no whole-number type.
fn miscast(typer: &mut Typer, pos: Pos, operand: &Operand) -> Result<Operand, OutOfMemory>
    ensures { Yields (spec.miscast pos operand.now typer.old) result typer.new }
{
    match operand {
        Operand::Number(_, _, value) => {
            Ok(Operand::Number(stand_in(), Num::I32, value.miscast()))
        }
        _ => no_number(typer, pos, operand.sort()),
    }
}

/// A cast to such a type.
#[tactic(auto, unfolding(crate::specs::Operands::cast))]
pub fn cast(
    alloc: Global,
    typer: &mut Typer,
    pos: Pos,
    element: Element,
    operand: Operand,
) -> Result<Operand, OutOfMemory>
    ensures { Yields (spec.cast pos element operand typer.old) result typer.new }
{
    match element {
        Element::Scalar(num) => cast_to(alloc, typer, pos, num, operand),
        Element::Struct(_) => {
            typer.refuse(5, pos)?;
            miscast(typer, pos, &operand)
        }
        Element::Void | Element::Unknown => miscast(typer, pos, &operand),
    }
}

// ---- chains of operators

fn join_of(op: sa_syntax::Operator) -> Join
    ensures { result ≡ spec.join_of op }
{
    match op {
        sa_syntax::Operator::Or => Join::Or,
        sa_syntax::Operator::And => Join::And,
        sa_syntax::Operator::BitOr => Join::Link(Operator::BitOr),
        sa_syntax::Operator::BitXor => Join::Link(Operator::BitXor),
        sa_syntax::Operator::BitAnd => Join::Link(Operator::BitAnd),
        sa_syntax::Operator::Equal => Join::Link(Operator::Equal),
        sa_syntax::Operator::NotEqual => Join::Link(Operator::NotEqual),
        sa_syntax::Operator::Less => Join::Link(Operator::Less),
        sa_syntax::Operator::LessEqual => Join::Link(Operator::LessEqual),
        sa_syntax::Operator::Greater => Join::Link(Operator::Greater),
        sa_syntax::Operator::GreaterEqual => Join::Link(Operator::GreaterEqual),
        sa_syntax::Operator::ShiftLeft => Join::Link(Operator::ShiftLeft),
        sa_syntax::Operator::ShiftRight => Join::Link(Operator::ShiftRight),
        sa_syntax::Operator::Plus => Join::Link(Operator::Plus),
        sa_syntax::Operator::Minus => Join::Link(Operator::Minus),
        sa_syntax::Operator::Times => Join::Link(Operator::Times),
        sa_syntax::Operator::Divide => Join::Link(Operator::Divide),
        sa_syntax::Operator::Remainder => Join::Link(Operator::Remainder),
    }
}

impl Join {
    /// The value of two operands that it joins.
    fn value(self, left: Value, right: Value) -> Value
        ensures { result ≡ spec.joined_value self left right }
    {
        match self {
            Join::And => left.and(right),
            Join::Or => left.or(right),
            Join::Link(op) => left.operated(op, right),
        }
    }
}

/// A chain of which the first operand alone is typed.
pub fn left_of(alloc: Global, operand: Operand) -> Left
    ensures { result ≡ spec.left_of operand }
{
    Left {
        sort: operand.sort(),
        value: operand.known_value(),
        first: operand.into_expr(),
        rest: Rest::Links(Items::new(alloc)),
    }
}

fn some_left(alloc: Global) -> Left
    ensures { result ≡ spec.some_left }
{
    left_of(alloc, some_number())
}

/// Operators of two levels, which no text has in one chain.
fn mixed(alloc: Global, value: Value) -> Left
    ensures { result ≡ spec.mixed value }
{
    Left {
        sort: Sort::Number(Num::I32),
        first: stand_in(),
        rest: Rest::Links(Items::new(alloc)),
        value,
    }
}

impl Rest {
    /// The links, where another one may follow.
    fn into_links(self) -> Option<Items<Link>>
        ensures { result ≡ spec.links_of self }
    {
        match self {
            Rest::Links(links) => Some(links),
            Rest::And(_) | Rest::Or(_) => None,
        }
    }

    /// The operands of `&&`, where another one may follow.
    fn into_ands(self, alloc: Global) -> Option<Items<Expr>>
        ensures { result ≡ spec.ands_of self }
    {
        match self {
            Rest::Links(links) => none_before(alloc, links.as_slice()),
            Rest::And(operands) => Some(operands),
            Rest::Or(_) => None,
        }
    }

    /// The operands of `||`, where another one may follow.
    fn into_ors(self, alloc: Global) -> Option<Items<Expr>>
        ensures { result ≡ spec.ors_of self }
    {
        match self {
            Rest::Links(links) => none_before(alloc, links.as_slice()),
            Rest::Or(operands) => Some(operands),
            Rest::And(_) => None,
        }
    }

    /// The chain with that first operand.
    fn chain(self, alloc: Global, first: Expr) -> Result<Expr, OutOfMemory>
        ensures { IfOk result (λ e. e ≡ spec.chain first self) }
    {
        let first = Boxed::new(alloc, first)?;
        Ok(match self {
            Rest::Links(links) => Expr::Chain(first, links),
            Rest::And(operands) => Expr::And(first, operands),
            Rest::Or(operands) => Expr::Or(first, operands),
        })
    }
}

/// The operands of `&&` or `||` so far, where no link stands before them.
fn none_before(alloc: Global, links: &[Link]) -> Option<Items<Expr>>
    ensures { result ≡ spec.ands_of (Links links.now) }
{
    match links {
        [] => Some(Items::new(alloc)),
        [_, ..] => None,
    }
}

/// With another operand that is a number, after the operands before it.
fn with_link(
    alloc: Global,
    op: Operator,
    pos: Pos,
    left: Left,
    before: Num,
    expr: Expr,
    num: Num,
    value: Value,
) -> Result<Left, OutOfMemory>
    ensures { IfOk result (λ l. l ≡ spec.with_link op pos left before expr num value (spec.links_of left.rest)) }
{
    let num = working(op, before, num);
    match left.rest.into_links() {
        None => Ok(mixed(alloc, value)),
        Some(mut links) => {
            links.push(Link {
                op,
                pos,
                num,
                operand: expr,
            })?;
            Ok(Left {
                sort: Sort::Number(op.result_type(num)),
                first: left.first,
                rest: Rest::Links(links),
                value,
            })
        }
    }
}

fn with_and(alloc: Global, left: Left, expr: Expr, value: Value) -> Result<Left, OutOfMemory>
    ensures { IfOk result (λ l. l ≡ spec.with_and left expr value (spec.ands_of left.rest)) }
{
    match left.rest.into_ands(alloc) {
        None => Ok(mixed(alloc, value)),
        Some(mut operands) => {
            operands.push(expr)?;
            Ok(Left {
                sort: Sort::Number(Num::I32),
                first: left.first,
                rest: Rest::And(operands),
                value,
            })
        }
    }
}

fn with_or(alloc: Global, left: Left, expr: Expr, value: Value) -> Result<Left, OutOfMemory>
    ensures { IfOk result (λ l. l ≡ spec.with_or left expr value (spec.ors_of left.rest)) }
{
    match left.rest.into_ors(alloc) {
        None => Ok(mixed(alloc, value)),
        Some(mut operands) => {
            operands.push(expr)?;
            Ok(Left {
                sort: Sort::Number(Num::I32),
                first: left.first,
                rest: Rest::Or(operands),
                value,
            })
        }
    }
}

fn joined(
    alloc: Global,
    join: Join,
    pos: Pos,
    left: Left,
    before: Num,
    expr: Expr,
    num: Num,
    value: Value,
) -> Result<Left, OutOfMemory>
    ensures { IfOk result (λ l. l ≡ spec.joined join pos left before expr num value) }
{
    let value = join.value(left.value, value);
    match join {
        Join::And => with_and(alloc, left, expr, value),
        Join::Or => with_or(alloc, left, expr, value),
        Join::Link(op) => with_link(alloc, op, pos, left, before, expr, num, value),
    }
}

/// What stands so far, with another operator and operand.
#[tactic(auto, unfolding(crate::specs::Operands::linked))]
pub fn linked(
    alloc: Global,
    typer: &mut Typer,
    op: sa_syntax::Operator,
    pos: Pos,
    left: Left,
    operand: Operand,
) -> Result<Left, OutOfMemory>
    ensures { Yields (spec.linked op pos left operand typer.old) result typer.new }
{
    match operand {
        Operand::Number(expr, num, value) => match left.sort {
            Sort::Number(before) => {
                joined(alloc, join_of(op), pos, left, before, expr, num, value)
            }
            Sort::Object => {
                typer.refuse(5, pos)?;
                Ok(some_left(alloc))
            }
            Sort::Unknown => Ok(some_left(alloc)),
        },
        Operand::Struct(_, _, _, _) | Operand::Array(_) => {
            typer.refuse(5, pos)?;
            Ok(some_left(alloc))
        }
        Operand::Unknown => {
            typer.refuse_if(left.sort.is_object(), 5, pos)?;
            Ok(some_left(alloc))
        }
    }
}

impl Left {
    /// The whole chain.
    pub fn into_operand(self, alloc: Global) -> Result<Operand, OutOfMemory>
        ensures { IfOk result (λ o. o ≡ spec.chained self) }
    {
        match self.sort {
            Sort::Number(num) => {
                let expr = self.rest.chain(alloc, self.first)?;
                Ok(Operand::Number(expr, num, self.value))
            }
            Sort::Object => Ok(some_number()),
            Sort::Unknown => Ok(Operand::Unknown),
        }
    }
}

// ---- the choice of one of two results

/// The choice, in the type to which its results are converted.
fn choice_in(
    alloc: Global,
    num: Num,
    condition: Operand,
    first: Operand,
    second: Operand,
) -> Result<Operand, OutOfMemory>
    ensures { IfOk result (λ o. o ≡ spec.choice_in num condition first second) }
{
    let value = condition
        .known_value()
        .choice(first.known_value(), second.known_value());
    let condition = Boxed::new(alloc, condition.into_expr())?;
    let first = Boxed::new(alloc, first.into_expr())?;
    let second = Boxed::new(alloc, second.into_expr())?;
    Ok(Operand::Number(Expr::Choice(condition, first, second, num), num, value))
}

/// `?:` with the mark at that place.
#[tactic(auto, unfolding(crate::specs::Operands::choice))]
pub fn choice(
    alloc: Global,
    typer: &mut Typer,
    pos: Pos,
    condition: Operand,
    first: Operand,
    second: Operand,
) -> Result<Operand, OutOfMemory>
    ensures { Yields (spec.choice pos condition first second typer.old) result typer.new }
{
    let is_object = condition.sort().is_object()
        || first.sort().is_object()
        || second.sort().is_object();
    typer.refuse_if(is_object, 5, pos)?;
    let num = common(first.num(), second.num());
    choice_in(alloc, num, condition, first, second)
}
