#![tactic(auto)]

// What every job that an order leads to keeps, proved over `rules`, in specs/. This crate has no code.
