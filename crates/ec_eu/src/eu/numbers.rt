//! Instructions on numbers.
ghost use Rattle.std.specs.Prelude.{◌≡◌};
ghost use Rattle.ec_eu.specs.Instructions as instructions;

use crate::eu::Eu;
use crate::state::Next;
use ec_base::{BinOp, Span, Trap, TrapKind, UnOp, Value, binary, unary};

/// What comes next where an instruction traps.
pub(crate) fn trapping(kind: TrapKind, at: Span) -> Next
    ensures { result ≡ instructions.trap_at kind at }
{
    Next::Traps(Trap { kind, at })
}

impl Eu {
    pub(crate) fn put_number(&mut self, n: u64, d: u32, k: i64) -> Next
        ensures { (self.new, result) ≡ instructions.puts_number n d k self.old }
    {
        self.put(n, d, Value::Int(k));
        Next::On
    }

    pub(crate) fn put_truth(&mut self, n: u64, d: u32, test: bool) -> Next
        ensures { (self.new, result) ≡ instructions.puts_truth n d test self.old }
    {
        self.put_number(n, d, if test { 1 } else { 0 })
    }

    pub(crate) fn unary(&mut self, n: u64, op: UnOp, d: u32, a: u32) -> Next
        ensures { (self.new, result) ≡ instructions.puts_unary n op d a self.old }
    {
        let number = unary(op, self.int(n, a));
        self.put_number(n, d, number)
    }

    pub(crate) fn binary(&mut self, n: u64, op: BinOp, d: u32, a: u32, b: u32) -> Next
        ensures { (self.new, result) ≡ instructions.puts_binary n op d a b self.old }
    {
        let number = binary(op, self.int(n, a), self.int(n, b)).unwrap_or(0);
        self.put_number(n, d, number)
    }

    /// An operator that divides, which traps where the divisor is 0.
    pub(crate) fn divide(&mut self, n: u64, op: BinOp, d: u32, a: u32, b: u32, at: Span) -> Next
        ensures { (self.new, result) ≡ instructions.divides n op d a b at self.old }
    {
        match binary(op, self.int(n, a), self.int(n, b)) {
            None => trapping(TrapKind::DivZero, at),
            Some(number) => self.put_number(n, d, number),
        }
    }
}

/// What comes next where an index is looked at before an array of this length is accessed.
pub(crate) fn check(length: u32, index: i64, at: Span) -> Next
    ensures { result ≡ instructions.checked length index at }
{
    if index >= 0 && (index as u64) < length as u64 {
        Next::On
    } else {
        trapping(TrapKind::Bounds, at)
    }
}

/// What comes next at a jump that is taken where the test holds.
pub(crate) fn jump_if(test: bool, target: u32) -> Next
    ensures { result ≡ instructions.jump_if test target }
{
    if test { Next::To(target) } else { Next::On }
}
