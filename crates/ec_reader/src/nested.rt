//! What stands one deeper, and parts of expressions that hold no others.
ghost use Rattle.std.specs.Prelude.{◌≡◌, ◌≤◌, ◌<◌, ◌&&◌, length, codes, OnOk, IfOk};
ghost use Rattle.ec_syntax.specs.Grammar.Expressions.{expression, joined};
ghost use Rattle.ec_syntax.specs.Grammar.Language.{first_is, span};
ghost use Rattle.ec_syntax.specs.Descent.Reader.{placed, inside};
ghost use Rattle.ec_syntax.specs.Descent.Tokens.{is_name as names, begins_base, name, sign, type_with};
ghost use Rattle.ec_base.specs.declared.token.Mark.TheVariants as m;
ghost use Rattle.ec_syntax.specs.Grammar.Tokens.{is_word};
ghost use Rattle.ec_syntax.specs.Descent.Expressions.{address, element, below};
ghost use Rattle.ec_reader.specs.Answers.{Told};
ghost use Rattle.ec_reader.specs.Inside.{selected_field, too_deep};
ghost use Rattle.ec_reader.specs.Operators.{makes};

use crate::cursor::Cursor;
use crate::operators::Infix;
use ec_base::{Boxed, Fail, Mark, Span};
use ec_syntax::{Expr, ExprKind, Fault, Name, Quantity, Ty};
use std::alloc::{AllocError, Global};

/// Why reading stops at a token that stands too deep, if it may stand there else.
pub(crate) fn too_deep(may_stand: bool) -> Fault
    ensures { result ≡ too_deep may_stand }
{
    if may_stand {
        Fault::Passes(Quantity::Nesting)
    } else {
        Fault::Expected
    }
}

/// The room one deeper.
pub(crate) fn below(room: u32) -> u32
    ensures { result ≡ below room }
{
    room.saturating_sub(1)
}

/// An operator with both of its operands.
pub(crate) fn join(
    alloc: Global,
    operator: Infix,
    left: Boxed<Expr>,
    right: Boxed<Expr>,
) -> Result<Boxed<Expr>, AllocError>
    ensures { IfOk result (λ e. e ≡ joined (makes operator) left right) }
{
    let at = Span {
        from: left.get().at.from,
        to: right.get().at.to,
    };
    let kind = operator.apply(left, right);
    Boxed::new(alloc, Expr { kind, at })
}

impl<'a> Cursor<'a> {
    /// An expression of this kind, from this place to the end of the last token that was read.
    pub(crate) fn made(
        &self,
        alloc: Global,
        from: u32,
        kind: ExprKind,
    ) -> Result<Boxed<Expr>, AllocError>
        ensures { IfOk result (λ e. e ≡ expression kind (span from self.now.end)) }
    {
        let at = self.span_from(from);
        Boxed::new(alloc, Expr { kind, at })
    }

    /// Whether `sizeof` is next, behind a `*`.
    pub(crate) fn is_size(&self, star: bool) -> bool
        ensures { result ≡ (star && first_is (is_word (codes "sizeof")) self.now.left) }
    {
        star && self.is_word(b"sizeof")
    }

    /// Reads a name one deeper.
    #[tactic(auto, using(crate::proofs::Parts::Rooms::inside_some, crate::proofs::Parts::Rooms::inside_none))]
    fn nested_name(&mut self, alloc: Global, room: u32) -> Result<Name, Fail<Fault>>
        ensures answer { Told (inside room names name self.old) result self.new }
        ensures takes { OnOk result (length self.new.left < length self.old.left) }
        ensures stays { length self.new.left ≤ length self.old.left }
    {
        if room == 0 {
            return Err(Fail::Refused(too_deep(self.is_name())));
        }
        self.name(alloc)
    }

    /// Reads the address of a variable.
    pub(crate) fn address(&mut self, alloc: Global, room: u32) -> Result<Boxed<Expr>, Fail<Fault>>
        ensures answer { Told (placed expression (address room) self.old) result self.new }
        ensures takes { OnOk result (length self.new.left < length self.old.left) }
        ensures stays { length self.new.left ≤ length self.old.left }
    {
        let from = self.begin();
        self.sign(Mark::And)?;
        let name = self.nested_name(alloc, room)?;
        Ok(self.made(alloc, from, ExprKind::Address(name.text))?)
    }

    /// Reads what selects a field of this operand.
    pub(crate) fn field(
        &mut self,
        alloc: Global,
        operand: Boxed<Expr>,
    ) -> Result<Boxed<Expr>, Fail<Fault>>
        ensures answer { Told (selected_field operand self.old) result self.new }
        ensures takes { OnOk result (length self.new.left < length self.old.left) }
        ensures stays { length self.new.left ≤ length self.old.left }
    {
        let from = operand.get().at.from;
        if self.is_mark(Mark::Arrow) {
            self.sign(Mark::Arrow)?;
            let name = self.name(alloc)?;
            return Ok(self.made(alloc, from, ExprKind::Arrow(operand, name.text))?);
        }
        self.sign(Mark::Dot)?;
        let name = self.name(alloc)?;
        Ok(self.made(alloc, from, ExprKind::Dot(operand, name.text))?)
    }

    /// Reads a type one deeper, inside a part.
    #[tactic(auto, using(crate::proofs::Parts::Rooms::inside_some, crate::proofs::Parts::Rooms::inside_none))]
    fn nested_type(&mut self, alloc: Global, room: u32) -> Result<Ty, Fail<Fault>>
        ensures answer { Told (inside room begins_base (type_with (sign m.Star)) self.old) result self.new }
        ensures stays { length self.new.left ≤ length self.old.left }
    {
        if room == 0 {
            return Err(Fail::Refused(too_deep(self.begins_base())));
        }
        self.signed_type(alloc)
    }

    /// Reads the element of a `malloc`, behind `sizeof`.
    pub(crate) fn element(&mut self, alloc: Global, room: u32) -> Result<Ty, Fail<Fault>>
        ensures answer { Told (element room self.old) result self.new }
        ensures takes { OnOk result (length self.new.left < length self.old.left) }
        ensures stays { length self.new.left ≤ length self.old.left }
    {
        self.sign(Mark::OpenParen)?;
        let element = self.nested_type(alloc, room)?;
        self.sign(Mark::CloseParen)?;
        Ok(element)
    }
}
