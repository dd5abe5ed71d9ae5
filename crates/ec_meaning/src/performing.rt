//! Works that read or change memory, print, or may trap.
ghost use Rattle.std.specs.Prelude.{◌≡◌, drop, get_or, pos};
ghost use Rattle.ec_meaning.specs.declared.value.Value.TheVariants as value;
ghost use Rattle.ec_meaning.specs.declared.work.Work.TheVariants as todo;
ghost use Rattle.ec_meaning.specs.declared.shared_state.Core as state;
ghost use Rattle.ec_meaning.specs.Kept.{Kept, Performed};
ghost use Rattle.ec_meaning.specs.Reached.{no_access, Gave, divided};
ghost use Rattle.ec_meaning.specs.Seen.{Does};

use crate::combining::combined;
use crate::hand::Hand;
use crate::memory::{shared, trapped};
use crate::operators::numbers;
use crate::shared_state::Core;
use crate::stack::Stack;
use crate::value::{Access, Value};
use crate::work::Work;
use ec_base::{BinOp, Fail, Span, Text, Trap, TrapKind, format_values};
use std::alloc::Global;

/// Takes the last value, 0 where there is none.
fn take_value(values: &mut Stack<Value>) -> Value
    ensures value { result ≡ get_or values.old 0 (value.Int (pos 0)) }
    ensures left { values.new ≡ drop 1 values.old }
{
    values.pop().unwrap_or(Value::Int(0))
}

/// Takes the last access.
fn take_access(accesses: &mut Stack<Access>) -> Access
    ensures value { result ≡ get_or accesses.old 0 no_access }
    ensures left { accesses.new ≡ drop 1 accesses.old }
{
    match accesses.pop() {
        Some(access) => access,
        None => shared(Span { from: 0, to: 0 }, Value::Int(0)),
    }
}

/// Puts an answer among the values.
fn give(values: &mut Stack<Value>, answer: Result<Value, Fail<Trap>>) -> Result<(), Fail<Trap>>
    ensures { Gave answer values.old values.new result }
{
    values.push(answer?)?;
    Ok(())
}

/// A value, or the trap where something is divided by 0.
fn divided(at: Span, value: Option<Value>) -> Result<Value, Fail<Trap>>
    ensures { result ≡ divided at value }
{
    match value {
        Some(value) => Ok(value),
        None => Err(trapped(TrapKind::DivZero, at)),
    }
}

/// Operators on two values.
pub(crate) fn combine(hand: &mut Hand, at: Span, op: BinOp) -> Result<(), Fail<Trap>>
    ensures { (c : state.Core) → Does (todo.Combine at op) hand.old c hand.new c result }
{
    let right = take_value(&mut hand.values);
    let left = take_value(&mut hand.values);
    give(&mut hand.values, divided(at, combined(op, left, right)))
}

/// What the last access reaches is put among the values.
pub(crate) fn load_from(hand: &mut Hand, core: &Core) -> Result<(), Fail<Trap>>
    ensures { Does todo.LoadFrom hand.old core.now hand.new core.now result }
{
    let access = take_access(&mut hand.accesses);
    give(&mut hand.values, core.load(&access))
}

/// So is what a shared variable holds.
pub(crate) fn load_shared(hand: &mut Hand, core: &Core, at: Span) -> Result<(), Fail<Trap>>
    ensures { Does (todo.LoadShared at) hand.old core.now hand.new core.now result }
{
    let pointer = take_value(&mut hand.values);
    give(&mut hand.values, core.load(&shared(at, pointer)))
}

/// A block of as many elements as the last value says.
pub(crate) fn allocate(
    alloc: Global,
    hand: &mut Hand,
    core: &mut Core,
    at: Span,
    pointers: &[bool],
) -> Result<(), Fail<Trap>>
    ensures kept { Kept result core.old core.new }
    ensures does { Does (todo.Allocate at pointers.entry) hand.old core.old hand.new core.new result }
{
    let count = take_value(&mut hand.values);
    let answer = core.allocate(alloc, at, pointers, count);
    give(&mut hand.values, answer)
}

/// A shared variable.
pub(crate) fn share(alloc: Global, hand: &mut Hand, core: &mut Core) -> Result<(), Fail<Trap>>
    ensures kept { Kept result core.old core.new }
    ensures does { Does todo.Share hand.old core.old hand.new core.new result }
{
    let answer = core.born(alloc, Vec::from_slice(alloc, &[Value::Int(0)])?);
    give(&mut hand.values, answer)
}

/// The last value is stored where the last access reaches.
pub(crate) fn save_to(hand: &mut Hand, core: &mut Core) -> Result<(), Fail<Trap>>
    ensures kept { Kept result core.old core.new }
    ensures does { Does todo.SaveTo hand.old core.old hand.new core.new result }
{
    let value = take_value(&mut hand.values);
    let access = take_access(&mut hand.accesses);
    core.save(&access, value)
}

/// The element of the last access is copied to that of the one before.
pub(crate) fn copy_to(alloc: Global, hand: &mut Hand, core: &mut Core) -> Result<(), Fail<Trap>>
    ensures kept { Kept result core.old core.new }
    ensures does { Does todo.CopyTo hand.old core.old hand.new core.new result }
{
    let source = take_access(&mut hand.accesses);
    let target = take_access(&mut hand.accesses);
    core.copy(alloc, &target, &source)
}

/// The last value is stored in the shared variable to which the one before points.
pub(crate) fn send_to(hand: &mut Hand, core: &mut Core, at: Span) -> Result<(), Fail<Trap>>
    ensures kept { Kept result core.old core.new }
    ensures does { Does (todo.SendTo at) hand.old core.old hand.new core.new result }
{
    let value = take_value(&mut hand.values);
    let pointer = take_value(&mut hand.values);
    core.save(&shared(at, pointer), value)
}

/// The last value is added to the shared variable to which the one before points.
pub(crate) fn add_up(hand: &mut Hand, core: &mut Core, at: Span) -> Result<(), Fail<Trap>>
    ensures kept { Kept result core.old core.new }
    ensures does { Does (todo.AddUp at) hand.old core.old hand.new core.new result }
{
    let value = take_value(&mut hand.values);
    let pointer = take_value(&mut hand.values);
    core.add(at, pointer, value)
}

/// The last values are printed, so many.
pub(crate) fn print_out(
    alloc: Global,
    hand: &mut Hand,
    core: &mut Core,
    string: &Text,
    count: usize,
) -> Result<(), Fail<Trap>>
    ensures kept { Kept result core.old core.new }
    ensures does { Does (todo.PrintOut string.entry count) hand.old core.old hand.new core.new result }
{
    let values = hand.values.take_last(count)?;
    let numbers = numbers(alloc, values.as_slice())?;
    let bytes = format_values(alloc, string.as_slice(), numbers.as_slice())?;
    core.output.extend_from_slice(bytes.as_slice())?;
    Ok(())
}

/// Does a work that reads or changes memory, prints, or may trap; none where the work is of another kind.
pub(crate) fn perform(
    alloc: Global,
    hand: &mut Hand,
    core: &mut Core,
    work: Work,
) -> Option<Result<(), Fail<Trap>>>
    ensures { Performed work.entry hand.old core.old hand.new core.new result }
{
    match work {
        Work::Combine(at, op) => Some(combine(hand, at, op)),
        Work::LoadFrom => Some(load_from(hand, core)),
        Work::LoadShared(at) => Some(load_shared(hand, core, at)),
        Work::Allocate(at, pointers) => Some(allocate(alloc, hand, core, at, pointers)),
        Work::Share => Some(share(alloc, hand, core)),
        Work::SaveTo => Some(save_to(hand, core)),
        Work::CopyTo => Some(copy_to(alloc, hand, core)),
        Work::SendTo(at) => Some(send_to(hand, core, at)),
        Work::AddUp(at) => Some(add_up(hand, core, at)),
        Work::PrintOut(string, count) => Some(print_out(alloc, hand, core, string, count)),
        _ => None,
    }
}
