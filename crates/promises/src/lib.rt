#![tactic(auto)]

// What document 01 promises of orders, stated and proved over `rules`, in specs/. This crate has no code.
