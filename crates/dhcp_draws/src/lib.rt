//! How many random words a client draws at an event, and that it looks at no more: with further
//! words behind those that are left it does the same.
#![tactic(auto)]

pub mod laws;
