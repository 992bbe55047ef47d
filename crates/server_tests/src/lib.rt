//! Tests of dhcp4_server, by its public calls.
#![tactic(auto)]

#[cfg(test)]
mod config;
#[cfg(test)]
mod messages;
#[cfg(test)]
mod pool;
