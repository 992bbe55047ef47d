//! The history of a DHCP client: whole stays with their attempts, and the machine that is polled
//! and reports them. Both are defined once, for every family of client.
#![tactic(auto)]

mod attempt;
mod bound_lease;
mod client;
mod errors;
mod event_loop;
pub mod laws;
mod machine;
mod release;
mod reported;
mod rules;
mod schedule;
mod script;
mod standing;
mod timed_release;

pub use attempt::send;
pub use bound_lease::BoundLease;
pub use client::{Client, Phase, Standing};
pub use event_loop::{play_event, replay};
pub use machine::{RunError, run};
pub use release::{ReleaseError, clean_up, release_by, release_held};
pub use reported::{Plain, StateReport};
pub use rules::{AttemptStart, NewAttempt, Rules, enter};
pub use schedule::{is_listening, next_poll};
pub use script::{Failure, Input, NumberedEvent, NumberedReport, Report};
pub use timed_release::{release_at, release_held_at};
