//! Tests of holdings, of the register and of its lender, by public calls alone: what no clause says. They are a crate
//! of their own, so that none of these libraries is proved a second time with them.
#![tactic(auto)]

#[cfg(test)]
mod call_tests;
#[cfg(test)]
mod gather_tests;
#[cfg(test)]
mod holding_parting_tests;
#[cfg(test)]
mod holding_tests;
#[cfg(test)]
mod lender_tests;
#[cfg(test)]
mod lent_tests;
#[cfg(test)]
mod page_tests;
#[cfg(test)]
mod parting_tests;
#[cfg(test)]
mod plain;
#[cfg(test)]
mod plain_board;
#[cfg(test)]
mod plain_regions;
#[cfg(test)]
mod plain_tests;
#[cfg(test)]
mod refused_tests;
#[cfg(test)]
mod region_tests;
#[cfg(test)]
mod tests;
