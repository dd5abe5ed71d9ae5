//! What an activation holds while it runs.
use crate::stack::Stack;
use crate::value::{Access, Value};
use crate::work::Work;

/// The values and accesses at hand, and the variables by their numbers; those behind the last one are 0.
#[derive(Drop)]
pub(crate) struct Hand {
    pub(crate) values: Stack<Value>,
    pub(crate) accesses: Stack<Access>,
    pub(crate) vars: Vec<Value>,
}

/// What an activation that has ended gives the one that waits: a value, NULL where a pointer is missing, or its variables.
#[derive(Clone, Copy)]
pub(crate) enum Awaits {
    Value(bool),
    Vars,
}

/// An activation: what it has still to do, and what it holds.
#[derive(Drop)]
pub(crate) struct Frame<'a> {
    pub(crate) works: Stack<Work<'a>>,
    pub(crate) hand: Hand,
}

/// An activation that waits for another one.
#[derive(Drop)]
pub(crate) struct Waiting<'a> {
    pub(crate) awaits: Awaits,
    pub(crate) frame: Frame<'a>,
}
