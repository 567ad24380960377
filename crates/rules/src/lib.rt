#![tactic(auto)]

// The rules of document 01 as definitions, in specs/. This crate has no code.
