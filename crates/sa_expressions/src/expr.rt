//! Expressions, places and types.

ghost use Rattle.std.specs.Prelude.{◌≡◌, ◌≤◌, ◌-◌, ◌∷◌, IfOk, suc, Some, None};
ghost use Rattle.sa_syntax.specs.Reading as spec;
ghost use Rattle.sa_syntax.specs.ReadExpr as read;
ghost use Rattle.sa_syntax.specs.ReadExpr.{inside};
ghost use Rattle.sa_syntax.specs.Trees as tree;
ghost use Rattle.sa_tokens.specs.declared.punct.Punct.TheVariants as m;
ghost use Rattle.sa_cursor.specs.Cursor as cursor;
ghost use Rattle.sa_cursor.specs.Outcome.{Reads};

use sa_base::OutOfMemory;
use sa_cursor::{
    LOOSEST, Stop, Tokens, TypeNames, level_of, operator_of, prefix_of, qualifier_of, scalar_of,
};
use sa_syntax::{
    Base, Bound, Declr, Expr, Field, Link, Name, Operator, Place, PlaceBase, Prefix, Qualified,
    Qualifier, ScalarWord, Specifiers, Step, Struct,
};
use sa_tokens::{Keyword, Punct};
use sqlite_items::{Boxed, Items};
use std::alloc::Global;

/// The grammar at a place of the source where these are the type names.
#[derive(Clone, Copy)]
pub struct Grammar<'n> {
    pub alloc: Global,
    pub names: &'n TypeNames,
}

// ---- words of types

fn qualifier_at(tokens: &Tokens<'_>) -> Option<Qualifier>
    ensures { result ≡ read.qualifier_in (spec.key_at tokens.now) }
{
    qualifier_of(tokens.key()?)
}

fn scalar_at(tokens: &Tokens<'_>) -> Option<ScalarWord>
    ensures { result ≡ read.scalar_in (spec.key_at tokens.now) }
{
    scalar_of(tokens.key()?)
}

fn operator_at(tokens: &Tokens<'_>) -> Option<Operator>
    ensures { result ≡ read.operator_in (spec.mark_at tokens.now) }
{
    operator_of(tokens.mark()?)
}

#[tactic(auto, unfolding(sa_syntax::specs::ReadExpr::sees_qualifier))]
fn sees_qualifier(tokens: &Tokens<'_>) -> bool
    ensures { result ≡ read.sees_qualifier tokens.now }
{
    qualifier_at(tokens).is_some()
}

#[tactic(auto, unfolding(sa_syntax::specs::ReadExpr::sees_scalar))]
fn sees_scalar(tokens: &Tokens<'_>) -> bool
    ensures { result ≡ read.sees_scalar tokens.now }
{
    scalar_at(tokens).is_some()
}

#[tactic(auto, unfolding(sa_syntax::specs::ReadExpr::sees_operator))]
fn sees_operator(tokens: &Tokens<'_>, level: usize) -> bool
    ensures { result ≡ read.sees_operator level tokens.now }
{
    match operator_at(tokens) {
        None => false,
        Some(op) => level_of(op) == level,
    }
}

fn sees_step(tokens: &Tokens<'_>) -> bool
    ensures { result ≡ read.sees_step tokens.now }
{
    tokens.sees(Punct::OpenBracket) || tokens.sees(Punct::Dot) || tokens.sees(Punct::Arrow)
}

#[tactic(auto, unfolding(sa_syntax::specs::ReadExpr::qualifier))]
fn qualifier(tokens: &mut Tokens<'_>) -> Result<Qualified, Stop>
    ensures { Reads (read.qualifier tokens.old) result tokens.new }
{
    let pos = tokens.pos();
    match qualifier_at(tokens) {
        None => Err(Stop::Syntax),
        Some(word) => {
            tokens.skip();
            Ok(Qualified { word, pos })
        }
    }
}

#[tactic(auto, unfolding(sa_syntax::specs::ReadExpr::scalar_word))]
fn scalar_word(tokens: &mut Tokens<'_>) -> Result<ScalarWord, Stop>
    ensures { Reads (read.scalar_word tokens.old) result tokens.new }
{
    match scalar_at(tokens) {
        None => Err(Stop::Syntax),
        Some(word) => {
            tokens.skip();
            Ok(word)
        }
    }
}

#[tactic(auto, unfolding(sa_syntax::specs::ReadExpr::operator))]
fn operator(tokens: &mut Tokens<'_>) -> Result<Operator, Stop>
    ensures { Reads (read.operator tokens.old) result tokens.new }
{
    match operator_at(tokens) {
        None => Err(Stop::Syntax),
        Some(op) => {
            tokens.skip();
            Ok(op)
        }
    }
}

/// The qualifiers before a type.
fn qualifiers(alloc: Global, tokens: &mut Tokens<'_>) -> Result<Items<Qualified>, Stop>
    ensures { Reads (spec.many read.sees_qualifier read.qualifier tokens.old) result tokens.new }
{
    let mut found = Items::new(alloc);
    for _turn in 0..tokens.turns() {
        if !sees_qualifier(tokens) {
            return Ok(found);
        }
        found.push(qualifier(tokens)?)?;
    }
    Err(Stop::Syntax)
}

/// The words of a whole-number type.
fn scalar_words(alloc: Global, tokens: &mut Tokens<'_>) -> Result<Items<ScalarWord>, Stop>
    ensures { Reads (spec.and_then (read.scalar_word tokens.old) (λ w ts. spec.and_then (spec.many read.sees_scalar read.scalar_word ts) (λ ws us. spec.Got (w ∷ ws) us))) result tokens.new }
{
    let mut found = Items::new(alloc);
    found.push(scalar_word(tokens)?)?;
    found.append(more_words(alloc, tokens)?)?;
    Ok(found)
}

/// The words of a whole-number type after the first.
fn more_words(alloc: Global, tokens: &mut Tokens<'_>) -> Result<Items<ScalarWord>, Stop>
    ensures { Reads (spec.many read.sees_scalar read.scalar_word tokens.old) result tokens.new }
{
    let mut found = Items::new(alloc);
    for _turn in 0..tokens.turns() {
        if !sees_scalar(tokens) {
            return Ok(found);
        }
        found.push(scalar_word(tokens)?)?;
    }
    Err(Stop::Syntax)
}

/// An integer constant.
#[tactic(auto, unfolding(sa_cursor::specs::Cursor::number))]
fn number(tokens: &mut Tokens<'_>) -> Result<Expr, Stop>
    ensures { Reads (cursor.number tokens.old) result tokens.new }
{
    let pos = tokens.pos();
    let Some((value, unsigned, longs, decimal)) = tokens.number() else {
        return Err(Stop::Syntax);
    };
    tokens.skip();
    Ok(Expr::Number(value, unsigned, longs, decimal, pos))
}

/// An operand with its operators.
fn chained(alloc: Global, first: Expr, links: Items<Link>) -> Result<Expr, OutOfMemory>
    ensures { IfOk result (λ a. a ≡ read.chained first links) }
{
    if links.is_empty() {
        Ok(first)
    } else {
        Ok(Expr::Chain(Boxed::new(alloc, first)?, links))
    }
}

impl Grammar<'_> {
    /// Whether a type begins here.
    #[tactic(auto, unfolding(sa_syntax::specs::ReadExpr::begins_type))]
    pub fn begins_type(&self, tokens: &Tokens<'_>) -> bool
        ensures { result ≡ read.begins_type self.now.names.now tokens.now }
    {
        sees_qualifier(tokens)
            || sees_scalar(tokens)
            || is_void_or_struct(tokens.key())
            || tokens.sees_type_name(self.names)
    }

    /// An expression.
    #[cycle(expression)]
    #[tactic(auto, using(crate::proofs::Rooms::inside_deeper), unfolding(sa_syntax::specs::ReadExpr::whole, sa_syntax::specs::ReadExpr::choice))]
    pub fn whole(&self, tokens: &mut Tokens<'_>, room: usize) -> Result<Expr, Stop>
        ensures { Reads (read.whole self.now.names.now room (inside self.now.names.now room) tokens.old) result tokens.new }
    {
        let condition = self.ranked(tokens, room, LOOSEST)?;
        if !tokens.sees(Punct::Question) {
            return Ok(condition);
        }
        let pos = tokens.opens(room, Punct::Question)?;
        let yes = self.whole(tokens, room - 1)?;
        tokens.expect(Punct::Colon)?;
        let no = self.whole(tokens, room - 1)?;
        Ok(Expr::Choice(
            Boxed::new(self.alloc, condition)?,
            pos,
            Boxed::new(self.alloc, yes)?,
            Boxed::new(self.alloc, no)?,
        ))
    }

    /// Operands with operators of this level and tighter ones.
    #[cycle(expression)]
    #[tactic(auto, unfolding(sa_syntax::specs::ReadExpr::ranked, sa_syntax::specs::ReadExpr::chain))]
    fn ranked(&self, tokens: &mut Tokens<'_>, room: usize, level: usize) -> Result<Expr, Stop>
        ensures { Reads (read.ranked self.now.names.now room (inside self.now.names.now room) level tokens.old) result tokens.new }
    {
        let mut value = self.unary(tokens, room)?;
        for below in 0..level {
            let links = self.links(tokens, room, below + 1)?;
            value = chained(self.alloc, value, links)?;
        }
        Ok(value)
    }

    /// Operators of this level, each with its right operand.
    #[cycle(expression)]
    fn links(&self, tokens: &mut Tokens<'_>, room: usize, level: usize) -> Result<Items<Link>, Stop>
        requires { 1 ≤ level }
        ensures { Reads (spec.many (read.sees_operator level) (read.a_link self.now.names.now room (inside self.now.names.now room) (read.ranked self.now.names.now room (inside self.now.names.now room) (level - 1))) tokens.old) result tokens.new }
    {
        let mut found = Items::new(self.alloc);
        for _turn in 0..tokens.turns() {
            if !sees_operator(tokens, level) {
                return Ok(found);
            }
            found.push(self.link(tokens, room, level)?)?;
        }
        Err(Stop::Syntax)
    }

    #[cycle(expression)]
    #[tactic(auto, unfolding(sa_syntax::specs::ReadExpr::a_link))]
    fn link(&self, tokens: &mut Tokens<'_>, room: usize, level: usize) -> Result<Link, Stop>
        requires { 1 ≤ level }
        ensures { Reads (read.a_link self.now.names.now room (inside self.now.names.now room) (read.ranked self.now.names.now room (inside self.now.names.now room) (level - 1)) tokens.old) result tokens.new }
    {
        let pos = tokens.pos();
        let op = operator(tokens)?;
        let operand = self.ranked(tokens, room, level - 1)?;
        Ok(Link { op, pos, operand })
    }

    /// An operand.
    #[cycle(expression)]
    #[tactic(auto, using(crate::proofs::Fronts::unary_seen))]
    fn unary(&self, tokens: &mut Tokens<'_>, room: usize) -> Result<Expr, Stop>
        ensures { Reads (read.unary self.now.names.now room (inside self.now.names.now room) tokens.old) result tokens.new }
    {
        match tokens.mark() {
            Some(Punct::OpenParen) => self.bracketed(tokens, room),
            Some(Punct::Star) => self.place_expr(tokens, room),
            Some(mark) => match prefix_of(mark) {
                None => Err(Stop::Syntax),
                Some(op) => self.prefixed(tokens, room, op),
            },
            None => {
                if tokens.sees_name() {
                    self.place_expr(tokens, room)
                } else {
                    number(tokens)
                }
            }
        }
    }

    #[cycle(expression)]
    #[tactic(auto, unfolding(sa_syntax::specs::ReadExpr::a_place))]
    fn place_expr(&self, tokens: &mut Tokens<'_>, room: usize) -> Result<Expr, Stop>
        ensures { Reads (read.a_place self.now.names.now room (inside self.now.names.now room) tokens.old) result tokens.new }
    {
        Ok(Expr::Place(self.place(tokens, room)?))
    }

    #[cycle(expression)]
    #[tactic(auto, using(crate::proofs::Rooms::inside_deeper), unfolding(sa_syntax::specs::ReadExpr::prefixed))]
    fn prefixed(&self, tokens: &mut Tokens<'_>, room: usize, op: Prefix) -> Result<Expr, Stop>
        ensures { Reads (read.prefixed self.now.names.now room (inside self.now.names.now room) op tokens.old) result tokens.new }
    {
        let pos = tokens.opens_any(room)?;
        let operand = self.unary(tokens, room - 1)?;
        Ok(Expr::Prefix(op, pos, Boxed::new(self.alloc, operand)?))
    }

    /// What begins with an opening bracket: a place through a reference, a cast, or an expression in brackets.
    #[cycle(expression)]
    #[tactic(auto, using(crate::proofs::Rooms::inside_deeper), unfolding(sa_syntax::specs::ReadExpr::bracketed, sa_syntax::specs::ReadExpr::cast, sa_syntax::specs::ReadExpr::bracket))]
    fn bracketed(&self, tokens: &mut Tokens<'_>, room: usize) -> Result<Expr, Stop>
        ensures { Reads (read.bracketed self.now.names.now room (inside self.now.names.now room) tokens.old) result tokens.new }
    {
        if tokens.sees_through() {
            return self.place_expr(tokens, room);
        }
        let is_cast = self.begins_type(&tokens.ahead());
        let pos = tokens.opens(room, Punct::OpenParen)?;
        if is_cast {
            let ty = self.specifiers(tokens, room - 1)?;
            tokens.expect(Punct::CloseParen)?;
            let operand = self.unary(tokens, room - 1)?;
            Ok(Expr::Cast(
                pos,
                Boxed::new(self.alloc, ty)?,
                Boxed::new(self.alloc, operand)?,
            ))
        } else {
            let inner = self.whole(tokens, room - 1)?;
            tokens.expect(Punct::CloseParen)?;
            Ok(Expr::Bracket(pos, Boxed::new(self.alloc, inner)?))
        }
    }

    /// A place.
    #[cycle(expression)]
    #[tactic(auto, unfolding(sa_syntax::specs::ReadExpr::place, sa_syntax::specs::ReadExpr::by_name, sa_syntax::specs::ReadExpr::through, sa_syntax::specs::ReadExpr::star))]
    pub fn place(&self, tokens: &mut Tokens<'_>, room: usize) -> Result<Place, Stop>
        ensures { Reads (read.place self.now.names.now room (inside self.now.names.now room) tokens.old) result tokens.new }
    {
        let base = match tokens.mark() {
            Some(Punct::OpenParen) => {
                let pos = tokens.opens(room, Punct::OpenParen)?;
                let star = tokens.expect(Punct::Star)?;
                let name = tokens.variable(self.alloc, self.names)?;
                tokens.expect(Punct::CloseParen)?;
                PlaceBase::Through(pos, star, name)
            }
            Some(Punct::Star) => {
                let pos = tokens.expect(Punct::Star)?;
                let name = tokens.variable(self.alloc, self.names)?;
                return Ok(Place {
                    base: PlaceBase::Star(pos, name),
                    steps: Items::new(self.alloc),
                });
            }
            _ => PlaceBase::Name(tokens.variable(self.alloc, self.names)?),
        };
        let steps = self.steps(tokens, room)?;
        Ok(Place { base, steps })
    }

    #[cycle(expression)]
    #[tactic(auto, unfolding(sa_syntax::specs::ReadExpr::steps))]
    fn steps(&self, tokens: &mut Tokens<'_>, room: usize) -> Result<Items<Step>, Stop>
        ensures { Reads (read.steps self.now.names.now room (inside self.now.names.now room) tokens.old) result tokens.new }
    {
        let mut found = Items::new(self.alloc);
        for _turn in 0..tokens.turns() {
            if !sees_step(tokens) {
                return Ok(found);
            }
            found.push(self.step(tokens, room)?)?;
        }
        Err(Stop::Syntax)
    }

    #[cycle(expression)]
    #[tactic(auto, using(crate::proofs::Rooms::inside_deeper), unfolding(sa_syntax::specs::ReadExpr::a_step, sa_syntax::specs::ReadExpr::index))]
    fn step(&self, tokens: &mut Tokens<'_>, room: usize) -> Result<Step, Stop>
        ensures { Reads (read.a_step self.now.names.now room (inside self.now.names.now room) tokens.old) result tokens.new }
    {
        match tokens.mark() {
            Some(Punct::OpenBracket) => {
                let pos = tokens.opens(room, Punct::OpenBracket)?;
                let index = self.whole(tokens, room - 1)?;
                tokens.expect(Punct::CloseBracket)?;
                Ok(Step::Index(pos, Boxed::new(self.alloc, index)?))
            }
            Some(Punct::Dot) => {
                let pos = tokens.expect(Punct::Dot)?;
                Ok(Step::Field(pos, tokens.any_name(self.alloc)?))
            }
            Some(Punct::Arrow) => {
                let pos = tokens.expect(Punct::Arrow)?;
                Ok(Step::Arrow(pos, tokens.any_name(self.alloc)?))
            }
            _ => Err(Stop::Syntax),
        }
    }

    /// A type.
    #[cycle(expression)]
    #[tactic(auto, unfolding(sa_syntax::specs::ReadExpr::specifiers))]
    pub fn specifiers(&self, tokens: &mut Tokens<'_>, room: usize) -> Result<Specifiers, Stop>
        ensures { Reads (read.specifiers self.now.names.now room (inside self.now.names.now room) tokens.old) result tokens.new }
    {
        let pos = tokens.pos();
        let qualifiers = qualifiers(self.alloc, tokens)?;
        let base = self.base(tokens, room)?;
        Ok(Specifiers {
            pos,
            qualifiers,
            base,
        })
    }

    #[cycle(expression)]
    #[tactic(auto, unfolding(sa_syntax::specs::ReadExpr::base, sa_syntax::specs::ReadExpr::struct_or_tag, sa_syntax::specs::ReadExpr::type_name))]
    fn base(&self, tokens: &mut Tokens<'_>, room: usize) -> Result<Base, Stop>
        ensures { Reads (read.base self.now.names.now room (inside self.now.names.now room) tokens.old) result tokens.new }
    {
        match tokens.key() {
            None => {
                if tokens.sees_type_name(self.names) {
                    Ok(Base::Named(tokens.any_name(self.alloc)?))
                } else {
                    Err(Stop::Syntax)
                }
            }
            Some(Keyword::Void) => {
                tokens.skip();
                Ok(Base::Void)
            }
            Some(Keyword::Struct) => {
                tokens.skip();
                self.struct_or_tag(tokens, room)
            }
            Some(_) => Ok(Base::Scalar(scalar_words(self.alloc, tokens)?)),
        }
    }

    /// What stands after the word `struct`.
    #[cycle(expression)]
    #[tactic(auto, using(crate::proofs::Fronts::tagged_seen), unfolding(sa_syntax::specs::ReadExpr::struct_or_tag))]
    fn struct_or_tag(&self, tokens: &mut Tokens<'_>, room: usize) -> Result<Base, Stop>
        ensures { Reads (read.struct_or_tag self.now.names.now room (inside self.now.names.now room) tokens.old) result tokens.new }
    {
        if !tokens.sees_name() {
            return self.body(tokens, room, None);
        }
        let tag = tokens.any_name(self.alloc)?;
        if tokens.sees(Punct::OpenBrace) {
            self.body(tokens, room, Some(tag))
        } else {
            Ok(Base::Tag(tag))
        }
    }

    /// The fields of a struct in their braces.
    #[cycle(expression)]
    #[tactic(auto, using(crate::proofs::Rooms::inside_deeper), unfolding(sa_syntax::specs::ReadExpr::body))]
    fn body(&self, tokens: &mut Tokens<'_>, room: usize, tag: Option<Name>) -> Result<Base, Stop>
        ensures { Reads (read.body self.now.names.now room (inside self.now.names.now room) tag tokens.old) result tokens.new }
    {
        tokens.opens(room, Punct::OpenBrace)?;
        let fields = self.fields(tokens, room - 1)?;
        tokens.expect(Punct::CloseBrace)?;
        Ok(Base::Struct(Struct { tag, fields }))
    }

    #[cycle(expression)]
    #[tactic(auto, unfolding(sa_syntax::specs::ReadExpr::fields))]
    fn fields(&self, tokens: &mut Tokens<'_>, room: usize) -> Result<Items<Field>, Stop>
        ensures { Reads (read.fields self.now.names.now room (inside self.now.names.now room) tokens.old) result tokens.new }
    {
        let mut found = Items::new(self.alloc);
        found.push(self.field(tokens, room)?)?;
        found.append(self.more_fields(tokens, room)?)?;
        Ok(found)
    }

    /// The fields up to the closing brace.
    #[cycle(expression)]
    fn more_fields(&self, tokens: &mut Tokens<'_>, room: usize) -> Result<Items<Field>, Stop>
        ensures { Reads (spec.many (read.no_brace self.now.names.now room (inside self.now.names.now room)) (read.field self.now.names.now room (inside self.now.names.now room)) tokens.old) result tokens.new }
    {
        let mut found = Items::new(self.alloc);
        for _turn in 0..tokens.turns() {
            if tokens.sees(Punct::CloseBrace) {
                return Ok(found);
            }
            found.push(self.field(tokens, room)?)?;
        }
        Err(Stop::Syntax)
    }

    #[cycle(expression)]
    #[tactic(auto, unfolding(sa_syntax::specs::ReadExpr::field))]
    fn field(&self, tokens: &mut Tokens<'_>, room: usize) -> Result<Field, Stop>
        ensures { Reads (read.field self.now.names.now room (inside self.now.names.now room) tokens.old) result tokens.new }
    {
        let ty = self.specifiers(tokens, room)?;
        let declrs = self.declrs(tokens, room)?;
        tokens.expect(Punct::Semicolon)?;
        Ok(Field { ty, declrs })
    }

    #[cycle(expression)]
    #[tactic(auto, unfolding(sa_syntax::specs::ReadExpr::declrs))]
    fn declrs(&self, tokens: &mut Tokens<'_>, room: usize) -> Result<Items<Declr>, Stop>
        ensures { Reads (read.declrs self.now.names.now room (inside self.now.names.now room) tokens.old) result tokens.new }
    {
        let mut found = Items::new(self.alloc);
        found.push(self.declr(tokens, room)?)?;
        found.append(self.more_declrs(tokens, room)?)?;
        Ok(found)
    }

    /// As long as there is a comma, one more.
    #[cycle(expression)]
    fn more_declrs(&self, tokens: &mut Tokens<'_>, room: usize) -> Result<Items<Declr>, Stop>
        ensures { Reads (spec.many (spec.sees m.Comma) (read.next_declr self.now.names.now room (inside self.now.names.now room)) tokens.old) result tokens.new }
    {
        let mut found = Items::new(self.alloc);
        for _turn in 0..tokens.turns() {
            if !tokens.sees(Punct::Comma) {
                return Ok(found);
            }
            found.push(self.next_declr(tokens, room)?)?;
        }
        Err(Stop::Syntax)
    }

    #[cycle(expression)]
    #[tactic(auto, unfolding(sa_syntax::specs::ReadExpr::next_declr))]
    fn next_declr(&self, tokens: &mut Tokens<'_>, room: usize) -> Result<Declr, Stop>
        ensures { Reads (read.next_declr self.now.names.now room (inside self.now.names.now room) tokens.old) result tokens.new }
    {
        tokens.expect(Punct::Comma)?;
        self.declr(tokens, room)
    }

    /// A declared name with its dimensions.
    #[cycle(expression)]
    #[tactic(auto, unfolding(sa_syntax::specs::ReadExpr::declr))]
    pub fn declr(&self, tokens: &mut Tokens<'_>, room: usize) -> Result<Declr, Stop>
        ensures { Reads (read.declr self.now.names.now room (inside self.now.names.now room) tokens.old) result tokens.new }
    {
        let name = tokens.any_name(self.alloc)?;
        let bounds = self.bounds(tokens, room)?;
        Ok(Declr { name, bounds })
    }

    #[cycle(expression)]
    fn bounds(&self, tokens: &mut Tokens<'_>, room: usize) -> Result<Items<Bound>, Stop>
        ensures { Reads (spec.many (spec.sees m.OpenBracket) (read.a_bound self.now.names.now room (inside self.now.names.now room)) tokens.old) result tokens.new }
    {
        let mut found = Items::new(self.alloc);
        for _turn in 0..tokens.turns() {
            if !tokens.sees(Punct::OpenBracket) {
                return Ok(found);
            }
            found.push(self.bound(tokens, room)?)?;
        }
        Err(Stop::Syntax)
    }

    #[cycle(expression)]
    #[tactic(auto, using(crate::proofs::Rooms::inside_deeper), unfolding(sa_syntax::specs::ReadExpr::a_bound))]
    fn bound(&self, tokens: &mut Tokens<'_>, room: usize) -> Result<Bound, Stop>
        ensures { Reads (read.a_bound self.now.names.now room (inside self.now.names.now room) tokens.old) result tokens.new }
    {
        let pos = tokens.opens(room, Punct::OpenBracket)?;
        let size = self.whole(tokens, room - 1)?;
        tokens.expect(Punct::CloseBracket)?;
        Ok(Bound { pos, size })
    }
}

fn is_void_or_struct(key: Option<Keyword>) -> bool
    ensures { result ≡ read.is_void_or_struct key }
{
    matches!(key, Some(Keyword::Void | Keyword::Struct))
}
