//! Tests of the public calls of the crates below: a file a crate. It holds nothing else, so that no crate below is proved
//! a second time for its tests.
#![tactic(auto)]

#[cfg(test)]
mod arithmetic;
#[cfg(test)]
mod base;
#[cfg(test)]
mod driver;
#[cfg(test)]
mod edge;
#[cfg(test)]
mod lex;
#[cfg(test)]
mod lowering;
#[cfg(test)]
mod machine;
#[cfg(test)]
mod meaning;
#[cfg(test)]
mod print;
#[cfg(test)]
mod resolve;
#[cfg(test)]
mod small;
#[cfg(test)]
mod source;
#[cfg(test)]
mod split;
#[cfg(test)]
mod types;
