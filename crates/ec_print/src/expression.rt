//! Types and expressions.
ghost use Rattle.std.specs.Prelude.{◌≡◌, OnOk, map};
ghost use Rattle.ec_base.specs.declared.token.Mark.TheVariants as m;
ghost use Rattle.ec_print.specs.Phrase.{◌then◌};
ghost use Rattle.ec_print.specs.Sentence as spec;
ghost use Rattle.ec_print.specs.Writing.{malloc_head, malloc_tail, with};

use crate::printer::Printer;
use ec_base::{BinOp, Boxed, Mark, UnOp};
use ec_syntax::{Base, Call, Expr, ExprKind, Placement, Ty};
use std::alloc::AllocError;

fn prefix(operator: UnOp) -> Mark
    ensures { result ≡ spec.prefix operator }
{
    match operator {
        UnOp::Neg => Mark::Minus,
        UnOp::Inv => Mark::Tilde,
        UnOp::Not => Mark::Bang,
    }
}

fn infix_mark(operator: BinOp) -> Mark
    ensures { result ≡ spec.infix_mark operator }
{
    match operator {
        BinOp::Add => Mark::Plus,
        BinOp::Sub => Mark::Minus,
        BinOp::Mul => Mark::Star,
        BinOp::Div => Mark::Slash,
        BinOp::Rem => Mark::Percent,
        BinOp::And => Mark::And,
        BinOp::Or => Mark::Or,
        BinOp::Xor => Mark::Caret,
        BinOp::Shl => Mark::ShiftLeft,
        BinOp::Shr => Mark::ShiftRight,
        BinOp::Eq => Mark::Equal,
        BinOp::Ne => Mark::NotEqual,
        BinOp::Lt => Mark::Less,
        BinOp::Le => Mark::LessEqual,
        BinOp::Gt => Mark::Greater,
        BinOp::Ge => Mark::GreaterEqual,
    }
}

impl Printer {
    fn base(&mut self, base: &Base) -> Result<(), AllocError>
        ensures { OnOk result (self.new ≡ with (spec.base base.now) self.old) }
    {
        match base {
            Base::Void => self.word(b"void"),
            Base::Int => self.word(b"int"),
            Base::Struct(name) => {
                self.word(b"struct")?;
                self.word(name.text.as_slice())
            }
        }
    }

    #[tactic(auto, using(crate::proofs::Appending::stars_left))]
    fn stars(&mut self, count: u32) -> Result<(), AllocError>
        ensures { OnOk result (self.new ≡ with (spec.stars count) self.old) }
    {
        for _ in 0..count {
            self.mark(Mark::Star)?;
        }
        Ok(())
    }

    pub(crate) fn ty(&mut self, ty: &Ty) -> Result<(), AllocError>
        ensures { OnOk result (self.new ≡ with (spec.type ty.now) self.old) }
    {
        self.base(&ty.base)?;
        self.stars(ty.stars)
    }

    /// A type in parentheses.
    fn bracketed_ty(&mut self, ty: &Ty) -> Result<(), AllocError>
        ensures { OnOk result (self.new ≡ with (spec.bracketed (spec.type ty.now)) self.old) }
    {
        self.mark(Mark::OpenParen)?;
        self.ty(ty)?;
        self.mark(Mark::CloseParen)
    }

    /// The type that a `malloc` is cast to.
    fn cast(&mut self, cast: &Option<Ty>) -> Result<(), AllocError>
        ensures { OnOk result (self.new ≡ with (spec.optional spec.cast cast.now) self.old) }
    {
        match cast {
            None => Ok(()),
            Some(ty) => self.bracketed_ty(ty),
        }
    }

    /// A `malloc` as far as its count.
    fn malloc_head(&mut self, cast: &Option<Ty>) -> Result<(), AllocError>
        ensures { OnOk result (self.new ≡ with (malloc_head cast.now) self.old) }
    {
        self.cast(cast)?;
        self.word(b"malloc")?;
        self.mark(Mark::OpenParen)
    }

    /// A `malloc` from its `sizeof` on.
    fn malloc_tail(&mut self, element: &Ty) -> Result<(), AllocError>
        ensures { OnOk result (self.new ≡ with (malloc_tail element.now) self.old) }
    {
        self.word(b"sizeof")?;
        self.bracketed_ty(element)?;
        self.mark(Mark::CloseParen)
    }

    /// A `malloc` from behind its count on.
    fn counted_tail(&mut self, element: &Ty) -> Result<(), AllocError>
        ensures { OnOk result (self.new ≡ with (spec.mark m.Star then malloc_tail element.now) self.old) }
    {
        self.mark(Mark::Star)?;
        self.malloc_tail(element)
    }

    /// A mark and a word.
    fn named(&mut self, mark: Mark, word: &[u8]) -> Result<(), AllocError>
        ensures { OnOk result (self.new ≡ with (spec.mark mark then spec.word word.now) self.old) }
    {
        self.mark(mark)?;
        self.word(word)
    }

    #[cycle(expression)]
    pub(crate) fn expression(&mut self, e: &Expr) -> Result<(), AllocError>
        ensures { OnOk result (self.new ≡ with (spec.expression e.now) self.old) }
    {
        match &e.kind {
            ExprKind::Number(n) => self.number(*n),
            ExprKind::Null => self.word(b"NULL"),
            ExprKind::Var(x) => self.word(x.as_slice()),
            ExprKind::Paren(inside) => self.bracketed(inside.get()),
            ExprKind::Unary(operator, operand) => self.prefixed(prefix(*operator), operand.get()),
            ExprKind::Binary(operator, a, b) => {
                self.expression(a.get())?;
                self.prefixed(infix_mark(*operator), b.get())
            }
            ExprKind::And(a, b) => {
                self.expression(a.get())?;
                self.prefixed(Mark::AndAnd, b.get())
            }
            ExprKind::Or(a, b) => {
                self.expression(a.get())?;
                self.prefixed(Mark::OrOr, b.get())
            }
            ExprKind::Deref(pointer) => self.prefixed(Mark::Star, pointer.get()),
            ExprKind::Index(pointer, index) => {
                self.expression(pointer.get())?;
                self.prefixed(Mark::OpenBracket, index.get())?;
                self.mark(Mark::CloseBracket)
            }
            ExprKind::Arrow(pointer, field) => {
                self.expression(pointer.get())?;
                self.named(Mark::Arrow, field.as_slice())
            }
            ExprKind::Dot(access, field) => {
                self.expression(access.get())?;
                self.named(Mark::Dot, field.as_slice())
            }
            ExprKind::Call(call) => self.call(call),
            ExprKind::New(cast, count, element) => {
                self.malloc_head(cast)?;
                match count {
                    None => self.malloc_tail(element),
                    Some(count) => {
                        self.expression(count.get())?;
                        self.counted_tail(element)
                    }
                }
            }
            ExprKind::ValueOf(shared) => {
                self.word(b"valueof")?;
                self.bracketed(shared.get())
            }
            ExprKind::Address(x) => self.named(Mark::And, x.as_slice()),
        }
    }

    /// A mark and an expression.
    #[cycle(expression)]
    fn prefixed(&mut self, mark: Mark, e: &Expr) -> Result<(), AllocError>
        ensures { OnOk result (self.new ≡ with (spec.mark mark then spec.expression e.now) self.old) }
    {
        self.mark(mark)?;
        self.expression(e)
    }

    /// An expression in parentheses.
    #[cycle(expression)]
    pub(crate) fn bracketed(&mut self, e: &Expr) -> Result<(), AllocError>
        ensures { OnOk result (self.new ≡ with (spec.bracketed (spec.expression e.now)) self.old) }
    {
        self.prefixed(Mark::OpenParen, e)?;
        self.mark(Mark::CloseParen)
    }

    #[cycle(expression)]
    pub(crate) fn call(&mut self, call: &Call) -> Result<(), AllocError>
        ensures { OnOk result (self.new ≡ with (spec.call call.now) self.old) }
    {
        self.word(call.name.text.as_slice())?;
        self.mark(Mark::OpenParen)?;
        self.arguments(call.args.as_slice())?;
        self.mark(Mark::CloseParen)?;
        self.placement(&call.place)
    }

    #[cycle(expression)]
    fn placement(&mut self, place: &Placement) -> Result<(), AllocError>
        ensures { OnOk result (self.new ≡ with (spec.placement place.now) self.old) }
    {
        match place {
            Placement::Here => Ok(()),
            Placement::OwnerOf(pointer) => {
                self.at_owner()?;
                self.bracketed(pointer.get())
            }
            Placement::Home => self.at(b"HOME"),
            Placement::Node(number) => {
                self.at(b"NODE")?;
                self.bracketed(number.get())
            }
            Placement::Anywhere => self.at(b"ANYWHERE"),
        }
    }

    /// `@` and a word.
    fn at(&mut self, word: &[u8]) -> Result<(), AllocError>
        ensures { OnOk result (self.new ≡ with (spec.at word.now) self.old) }
    {
        self.named(Mark::At, word)
    }

    /// `@` and `OWNER_OF`.
    #[tactic(auto, unfolding(crate::specs::Sentence::at_owner))]
    fn at_owner(&mut self) -> Result<(), AllocError>
        ensures { OnOk result (self.new ≡ with spec.at_owner self.old) }
    {
        self.at(b"OWNER_OF")
    }

    /// Expressions with a comma between each two.
    #[tactic(auto, using(crate::proofs::Appending::one_listed))]
    #[cycle(expression)]
    fn arguments(&mut self, all: &[Expr]) -> Result<(), AllocError>
        ensures { OnOk result (self.new ≡ with (spec.listed (map spec.expression all.now)) self.old) }
    {
        for (at, e) in all.iter().enumerate() {
            self.separator(at)?;
            self.expression(e)?;
        }
        Ok(())
    }

    /// Two expressions in parentheses.
    pub(crate) fn pair(&mut self, a: &Expr, b: &Expr) -> Result<(), AllocError>
        ensures { OnOk result (self.new ≡ with (spec.pair a.now b.now) self.old) }
    {
        self.prefixed(Mark::OpenParen, a)?;
        self.prefixed(Mark::Comma, b)?;
        self.mark(Mark::CloseParen)
    }

    /// An expression that may be missing.
    pub(crate) fn optional(&mut self, e: &Option<Boxed<Expr>>) -> Result<(), AllocError>
        ensures { OnOk result (self.new ≡ with (spec.optional spec.expression e.now) self.old) }
    {
        match e {
            None => Ok(()),
            Some(e) => self.expression(e.get()),
        }
    }

    /// Expressions with a comma before each.
    pub(crate) fn further_arguments(&mut self, all: &[Expr]) -> Result<(), AllocError>
        ensures { OnOk result (self.new ≡ with (spec.further (map spec.expression all.now)) self.old) }
    {
        for e in all {
            self.prefixed(Mark::Comma, e)?;
        }
        Ok(())
    }
}
