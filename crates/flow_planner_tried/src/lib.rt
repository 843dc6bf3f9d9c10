//! The planner on worked sheets, on all small ones and on a sample of larger ones.
//!
//! Tests alone, which cross the reading of sheets, the planner, the writing of plans and the checker.
#![tactic(auto)]

#[cfg(test)]
mod brute_force;
#[cfg(test)]
mod even_loads;
#[cfg(test)]
mod plain_sheet;
#[cfg(test)]
mod random_sheets;
#[cfg(test)]
mod worked_sheets;
