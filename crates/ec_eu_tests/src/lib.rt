//! Tests of the public calls of the execution unit: each instruction and each entry once alone.
#![tactic(auto)]

#[cfg(test)]
mod execution;
