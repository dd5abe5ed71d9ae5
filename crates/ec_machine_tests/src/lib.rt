//! Tests of the public calls of the machine of nodes: a file a crate. They stand apart from those of the other crates, on which they
//! don't rest, so that neither are proved again where the others change.
#![tactic(auto)]

#[cfg(test)]
mod code;
#[cfg(test)]
mod memory;
#[cfg(test)]
mod queues;
#[cfg(test)]
mod slots;
#[cfg(test)]
mod synchronisation;
#[cfg(test)]
mod worlds;
