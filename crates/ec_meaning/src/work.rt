//! What is still to do in an activation.
ghost use Rattle.std.specs.Prelude.{◌≡◌, if◌then◌else◌};
ghost use Rattle.ec_meaning.specs.Acts.{operands};
ghost use Rattle.ec_meaning.specs.Seen.{Untold, placement};

use crate::value::Value;
use ec_base::{BinOp, Span, Text, UnOp};
use ec_resolve::{
    Action, Assignment, Declared, Extent, ForHeader, ForallHeader, Invocation, Place, Term,
};

/// The kind of a placement.
#[derive(Clone, Copy)]
pub(crate) enum Placement {
    Here,
    OwnerOf,
    Home,
    Node,
    Anywhere,
}

impl Placement {
    /// Whether a value says where.
    pub(crate) fn has_operand(self) -> bool
        ensures { (u : Untold) → operands (placement u self) ≡ (if result then 1 else 0) }
    {
        match self {
            Placement::OwnerOf | Placement::Node => true,
            Placement::Here | Placement::Home | Placement::Anywhere => false,
        }
    }
}

/// What a loop tests and repeats.
#[derive(Clone, Copy)]
pub(crate) enum Loop<'a> {
    While(&'a Term, &'a Action),
    For(&'a ForHeader, &'a Action),
    Forall(&'a ForallHeader, &'a Action),
}

/// A work takes values and accesses from the hand, and puts them there.
#[derive(Clone, Copy)]
pub(crate) enum Work<'a> {
    Value(&'a Term),
    Constant(Value),
    Reach(&'a Place),
    Arguments(&'a [Term]),
    Call(&'a Invocation),
    Operate(UnOp),
    Combine(Span, BinOp),
    /// The right side of `&&`, where the left one holds.
    AndThen(&'a Term),
    /// The right side of `||`, where the left one doesn't hold.
    OrElse(&'a Term),
    AsTruth,
    ToElement(Span, u32),
    ToBehind(Span, u32, Extent),
    ToField(Span, Extent),
    ToItem(Span),
    LoadFrom,
    LoadShared(Span),
    Allocate(Span, &'a [bool]),
    Share,
    SaveTo,
    CopyTo,
    SendTo(Span),
    AddUp(Span),
    /// A call of the function of this number with so many arguments.
    Enter(Placement, usize, usize),
    Drop,
    Assign(&'a Assignment),
    SetTo(usize),
    Declare(&'a [Declared]),
    Statement(&'a Action),
    Statements(&'a [Action]),
    Branches(&'a [Action]),
    Branch(&'a Action),
    Decide(&'a Action, Option<&'a Action>),
    Turn(Loop<'a>),
    Again(Loop<'a>),
    /// A construct has ended, before which there were so many births.
    Joined(u64),
    PrintOut(&'a Text, usize),
    GiveBack,
}
