//! Tests of nodes, trees, cuts and the index of numbers, by public calls alone: what no clause says. They are a crate
//! of their own, so that none of these libraries is proved a second time with them.
#![tactic(auto)]

#[cfg(test)]
mod cut_tests;
#[cfg(test)]
mod index_tests;
#[cfg(test)]
mod node_tests;
#[cfg(test)]
mod subtree_tests;
