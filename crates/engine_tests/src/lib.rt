//! Tests of the engine, by public calls alone: what no clause says, as that workers work at once, and that those who
//! aren't concerned go on. They are a crate of their own, so that the library isn't proved a second time with them.
#![tactic(auto)]

#[cfg(test)]
mod drawn_tests;
#[cfg(test)]
mod draws;
#[cfg(test)]
mod engines;
#[cfg(test)]
mod gated_tests;
#[cfg(test)]
mod gates;
#[cfg(test)]
mod refused_tests;
#[cfg(test)]
mod run_tests;
