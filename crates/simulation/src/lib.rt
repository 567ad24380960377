#![tactic(auto)]

// How scratch stands for a job, in specs/. This crate has no code.
