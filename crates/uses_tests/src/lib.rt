//! Tests of the callers in `uses`, by their public calls.
#![tactic(auto)]

#[cfg(test)]
mod boxed;
#[cfg(test)]
mod heard;
#[cfg(test)]
mod manager;
#[cfg(test)]
mod rules;
