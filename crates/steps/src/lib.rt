// Steps of boards in lent scratch (document 01, "How a board steps"): able, a match, initiating steps, waiting halves, a whole
// step. Only scratch changes: deliveries are made at the end of a job, from the rows.
#![tactic(auto)]

pub mod able;
mod initiating;
mod matching;
mod parts;
mod sends;
pub mod turn;
