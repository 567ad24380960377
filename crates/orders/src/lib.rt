// Following an order of ranks, and the desk's own run, in lent scratch (document 01, "The desk and its three services").
#![tactic(auto)]

pub mod follow;
pub mod lowest;
pub mod run;
