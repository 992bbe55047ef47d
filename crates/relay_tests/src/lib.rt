//! Tests of dhcp6_relay: relay messages, their layers, and the call behind the program.
#![tactic(auto)]

#[cfg(test)]
mod layers;
#[cfg(test)]
mod messages;
#[cfg(test)]
mod refusals;
#[cfg(test)]
mod tool;
