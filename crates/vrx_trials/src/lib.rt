//! Tests of the engine, called from outside. They stand in a crate of their own, so that the engine isn't proved again
//! with them.
#![tactic(auto)]

#[cfg(test)]
mod tests;
