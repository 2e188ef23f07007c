//! Tests of what no clause says and no row shows. They use what is public, and stand in a crate of their own, since a crate with tests is
//! proved twice.
#![tactic(auto)]

#[cfg(test)]
mod tests;
