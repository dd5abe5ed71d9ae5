//! Parentheses, `malloc` and its casts. `room` is that for nesting below.
ghost use Rattle.std.specs.Prelude.{◌≡◌, ◌≤◌, ◌<◌, length, OnOk};
ghost use Rattle.ec_syntax.specs.Descent.Reader.{inside};
ghost use Rattle.ec_syntax.specs.Descent.Expressions.{begins_amount, parenthesised, malloc, amount, below as less, count, unary};
ghost use Rattle.ec_reader.specs.Answers.{Told, ToldBy};
ghost use Rattle.ec_reader.specs.Inside.{amount_of, begins_parenthesised, behind_parenthesis};

use crate::cursor::Cursor;
use crate::nested::{below, join, too_deep};
use ec_base::{Boxed, Fail, Mark};
use ec_syntax::{Expr, ExprKind, Fault, Ty};
use std::alloc::Global;

/// What stands between the brackets of a `malloc`: a count, if there is one, and the type of the elements.
#[derive(Drop)]
pub(crate) struct Amount {
    pub(crate) count: Option<Boxed<Expr>>,
    pub(crate) element: Ty,
}

impl<'a> Cursor<'a> {
    /// Reads an expression in parentheses, or a cast and its `malloc`.
    #[cycle(expression)]
    pub(crate) fn parenthesised(
        &mut self,
        alloc: Global,
        room: u32,
    ) -> Result<ExprKind, Fail<Fault>>
        ensures answer { Told (parenthesised room (unary room) self.old) result self.new }
        ensures takes { OnOk result (length self.new.left < length self.old.left) }
        ensures stays { length self.new.left ≤ length self.old.left }
    {
        self.sign(Mark::OpenParen)?;
        self.nested_parenthesis(alloc, room)
    }

    /// Reads what stands in parentheses, one deeper.
    #[cycle(expression)]
    #[tactic(auto, using(crate::proofs::Parts::Rooms::inside_some, crate::proofs::Parts::Rooms::inside_none))]
    fn nested_parenthesis(&mut self, alloc: Global, room: u32) -> Result<ExprKind, Fail<Fault>>
        ensures answer { Told (inside room begins_parenthesised (behind_parenthesis room) self.old) result self.new }
        ensures takes { OnOk result (length self.new.left < length self.old.left) }
        ensures stays { length self.new.left ≤ length self.old.left }
    {
        if room == 0 {
            return Err(Fail::Refused(too_deep(self.begins_parenthesised())));
        }
        self.behind_parenthesis(alloc, room)
    }

    /// Reads what stands in parentheses, behind the first one: an expression, or a cast and its `malloc`.
    #[cycle(expression)]
    fn behind_parenthesis(&mut self, alloc: Global, room: u32) -> Result<ExprKind, Fail<Fault>>
        ensures answer { Told (behind_parenthesis room self.old) result self.new }
        ensures takes { OnOk result (length self.new.left < length self.old.left) }
        ensures stays { length self.new.left ≤ length self.old.left }
    {
        if self.begins_base() {
            let cast = self.signed_pointer(alloc)?;
            self.sign(Mark::CloseParen)?;
            return self.malloc(alloc, room, Some(cast));
        }
        let inner = self.level(alloc, room, 10)?;
        self.sign(Mark::CloseParen)?;
        Ok(ExprKind::Paren(inner))
    }

    /// Reads `malloc` and its amount, behind its cast.
    #[cycle(expression)]
    pub(crate) fn malloc(
        &mut self,
        alloc: Global,
        room: u32,
        cast: Option<Ty>,
    ) -> Result<ExprKind, Fail<Fault>>
        ensures answer { Told (malloc room (unary room) cast self.old) result self.new }
        ensures takes { OnOk result (length self.new.left < length self.old.left) }
        ensures stays { length self.new.left ≤ length self.old.left }
    {
        self.word(b"malloc")?;
        self.sign(Mark::OpenParen)?;
        let Amount { count, element } = self.nested_amount(alloc, room)?;
        self.sign(Mark::CloseParen)?;
        Ok(ExprKind::New(cast, count, element))
    }

    /// Reads the amount of a `malloc`, one deeper.
    #[cycle(expression)]
    #[tactic(auto, using(crate::proofs::Parts::Rooms::inside_some, crate::proofs::Parts::Rooms::inside_none))]
    fn nested_amount(&mut self, alloc: Global, room: u32) -> Result<Amount, Fail<Fault>>
        ensures answer { ToldBy amount_of
            (inside room begins_amount (amount (less room) (unary room)) self.old) result self.new }
        ensures stays { length self.new.left ≤ length self.old.left }
    {
        if room == 0 {
            return Err(Fail::Refused(too_deep(self.begins_amount())));
        }
        self.amount(alloc, room)
    }

    /// Reads the count of a `malloc`, if there is one, and its element.
    #[cycle(expression)]
    fn amount(&mut self, alloc: Global, room: u32) -> Result<Amount, Fail<Fault>>
        ensures answer { ToldBy amount_of (amount (less room) (unary room) self.old) result self.new }
        ensures stays { length self.new.left ≤ length self.old.left }
    {
        if self.is_word(b"sizeof") {
            self.word(b"sizeof")?;
            let element = self.element(alloc, below(room))?;
            return Ok(Amount {
                count: None,
                element,
            });
        }
        let count = self.count(alloc, room)?;
        let element = self.element(alloc, below(room))?;
        Ok(Amount {
            count: Some(count),
            element,
        })
    }

    /// Reads the count of a `malloc`, and the `*` and `sizeof` behind it.
    #[cycle(expression)]
    #[tactic(auto, using(crate::proofs::Loops::Factors::counting_first, crate::proofs::Loops::Factors::counting_more))]
    fn count(&mut self, alloc: Global, room: u32) -> Result<Boxed<Expr>, Fail<Fault>>
        ensures answer { Told (count (unary room) self.old) result self.new }
        ensures takes { OnOk result (length self.new.left < length self.old.left) }
        ensures stays { length self.new.left ≤ length self.old.left }
    {
        let mut left = self.unary(alloc, room)?;
        'factors: loop {
            let (star, operator) = self.factor()?;
            if self.is_size(star) {
                self.word(b"sizeof")?;
                return Ok(left);
            }
            let right = self.unary(alloc, room)?;
            left = join(alloc, operator, left, right)?;
        }
    }
}
