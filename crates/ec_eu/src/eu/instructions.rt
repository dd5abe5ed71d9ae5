//! Single instructions.
ghost use Rattle.std.specs.Prelude.{◌≡◌, IfOk};
ghost use Rattle.ec_eu.specs.Cells.{int_at, pointer_at, put};
ghost use Rattle.ec_eu.specs.Instructions.{on, one};
ghost use Rattle.ec_eu.specs.State.{says};

use crate::eu::Eu;
use crate::eu::accesses::Spot;
use crate::eu::cells::same_block;
use crate::eu::copies::Element;
use crate::eu::numbers::{check, jump_if};
use crate::state::Next;
use ec_base::{BinOp, NoMemory, Span, UnOp, Value};
use ec_code::{Instr, Message};
use std::alloc::Global;

impl Eu {
    /// The cell of an element that an instruction names.
    fn spot(&self, n: u64, index: u32, size: u32, off: u32) -> Spot
        ensures index { result.index ≡ int_at n index self.now }
        ensures size { result.size ≡ size }
        ensures off { result.off ≡ int_at n off self.now }
    {
        Spot {
            index: self.int(n, index),
            size,
            off: self.int(n, off),
        }
    }

    /// The element that an instruction names.
    fn element(&self, n: u64, pointer: u32, index: u32, at: Span) -> Element
        ensures pointer { result.pointer ≡ pointer_at n pointer self.now }
        ensures index { result.index ≡ int_at n index self.now }
        ensures at { result.at ≡ at }
    {
        Element {
            pointer: self.pointer(n, pointer),
            index: self.int(n, index),
            at,
        }
    }

    fn say_on(&mut self, message: Message) -> Result<Next, NoMemory>
        ensures { IfOk result (λ next. (self.new, next) ≡ on (says message self.old)) }
    {
        self.say(message)?;
        Ok(Next::On)
    }

    fn put_on(&mut self, n: u64, d: u32, value: Value) -> Next
        ensures { (self.new, result) ≡ on (put n d value self.old) }
    {
        self.put(n, d, value);
        Next::On
    }

    /// One instruction of a frame, and what comes next.
    pub(crate) fn one(&mut self, alloc: Global, n: u64, x: &Instr) -> Result<Next, NoMemory>
        ensures { IfOk result (λ next. (self.new, next) ≡ one n x.now self.old) }
    {
        match x {
            Instr::Const(d, k) => Ok(self.put_number(n, *d, *k)),
            Instr::Nil(d) => Ok(self.put_on(n, *d, Value::Null)),
            Instr::Copy(d, a) => Ok(self.put_on(n, *d, self.value(n, *a))),
            Instr::Neg(d, a) => Ok(self.unary(n, UnOp::Neg, *d, *a)),
            Instr::Inv(d, a) => Ok(self.unary(n, UnOp::Inv, *d, *a)),
            Instr::Not(d, a) => Ok(self.unary(n, UnOp::Not, *d, *a)),
            Instr::Add(d, a, b) => Ok(self.binary(n, BinOp::Add, *d, *a, *b)),
            Instr::Sub(d, a, b) => Ok(self.binary(n, BinOp::Sub, *d, *a, *b)),
            Instr::Mul(d, a, b) => Ok(self.binary(n, BinOp::Mul, *d, *a, *b)),
            Instr::And(d, a, b) => Ok(self.binary(n, BinOp::And, *d, *a, *b)),
            Instr::Or(d, a, b) => Ok(self.binary(n, BinOp::Or, *d, *a, *b)),
            Instr::Xor(d, a, b) => Ok(self.binary(n, BinOp::Xor, *d, *a, *b)),
            Instr::Shl(d, a, b) => Ok(self.binary(n, BinOp::Shl, *d, *a, *b)),
            Instr::Shr(d, a, b) => Ok(self.binary(n, BinOp::Shr, *d, *a, *b)),
            Instr::Eq(d, a, b) => Ok(self.binary(n, BinOp::Eq, *d, *a, *b)),
            Instr::Ne(d, a, b) => Ok(self.binary(n, BinOp::Ne, *d, *a, *b)),
            Instr::Lt(d, a, b) => Ok(self.binary(n, BinOp::Lt, *d, *a, *b)),
            Instr::Le(d, a, b) => Ok(self.binary(n, BinOp::Le, *d, *a, *b)),
            Instr::Gt(d, a, b) => Ok(self.binary(n, BinOp::Gt, *d, *a, *b)),
            Instr::Ge(d, a, b) => Ok(self.binary(n, BinOp::Ge, *d, *a, *b)),
            Instr::Div(d, a, b, at) => Ok(self.divide(n, BinOp::Div, *d, *a, *b, *at)),
            Instr::Rem(d, a, b, at) => Ok(self.divide(n, BinOp::Rem, *d, *a, *b, *at)),
            Instr::Same(d, a, b) => {
                let test = same_block(self.pointer(n, *a), self.pointer(n, *b));
                Ok(self.put_truth(n, *d, test))
            }
            Instr::IsNil(d, a) => {
                let test = same_block(self.pointer(n, *a), None);
                Ok(self.put_truth(n, *d, test))
            }
            Instr::Check(a, length, at) => Ok(check(*length, self.int(n, *a), *at)),
            Instr::Alloc(d, a, size, nils, at) => {
                let count = self.int(n, *a);
                self.allocate(alloc, n, *d, count, *size, *nils, *at)
            }
            Instr::Load(d, p, x, size, off, at) => {
                let spot = self.spot(n, *x, *size, *off);
                Ok(self.load(n, *d, self.pointer(n, *p), spot, *at))
            }
            Instr::Store(p, x, size, off, a, at) => {
                let spot = self.spot(n, *x, *size, *off);
                Ok(self.store(self.pointer(n, *p), spot, self.value(n, *a), *at))
            }
            Instr::Jump(k) => Ok(Next::To(*k)),
            Instr::JumpZ(a, k) => Ok(jump_if(self.int(n, *a) == 0, *k)),
            Instr::InitSync(slot, count, reset, fiber) => self.say_on(Message::Init {
                frame: n,
                slot: *slot,
                count: *count,
                reset: *reset,
                fiber: *fiber,
            }),
            Instr::Sync(slot) => {
                let node = self.memory.number();
                self.say_on(Message::Sync {
                    node,
                    frame: n,
                    slot: *slot,
                })
            }
            Instr::IncrSync(slot) => self.say_on(Message::Incr {
                frame: n,
                slot: *slot,
            }),
            Instr::GetSync(p, x, size, off, d, slot, at) => {
                let spot = self.spot(n, *x, *size, *off);
                let back = self.back(n, Some(*d), *slot);
                self.ask_load(self.pointer(n, *p), spot, *at, back)
            }
            Instr::DataSync(a, p, x, size, off, slot, at) => {
                let spot = self.spot(n, *x, *size, *off);
                let back = self.back(n, None, *slot);
                self.ask_store(self.pointer(n, *p), spot, self.value(n, *a), *at, back)
            }
            Instr::BlkmovSync(p, x, q, y, size, slot, at, at_to) => {
                let source = self.element(n, *p, *x, *at);
                let target = self.element(n, *q, *y, *at_to);
                let back = self.back(n, None, *slot);
                self.ask_copy(source, target, *size, back)
            }
            Instr::AddSync(a, p, slot, at) => {
                let back = self.back(n, None, *slot);
                self.ask_add(self.pointer(n, *p), self.value(n, *a), *at, back)
            }
            Instr::PrintSync(string, cells, slot) => {
                self.print(alloc, n, string, cells.as_slice(), *slot)?;
                Ok(Next::On)
            }
            Instr::Invoke(f, place, results, slot, args) => {
                let (results, args) = (results.as_slice(), args.as_slice());
                self.invoke(alloc, n, *f, *place, results, *slot, args)?;
                Ok(Next::On)
            }
            Instr::Spawn(fiber) => {
                self.spawn(n, *fiber)?;
                Ok(Next::On)
            }
            Instr::EndFunction(cells) => {
                self.end_function(alloc, n, cells.as_slice())?;
                Ok(Next::Ends)
            }
            Instr::EndFiber => Ok(Next::Ends),
        }
    }
}
