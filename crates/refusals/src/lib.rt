// Checking a job sheet: refusals 1 to 7 of document 01, lowest number first.
#![tactic(auto)]

mod boards;
pub mod check;
mod header;
mod scripts;
