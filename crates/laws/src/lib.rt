#![tactic(auto)]

// Laws of the definitions in rules, and of lists and tests, that the promises and the code cite. This crate has no code.
