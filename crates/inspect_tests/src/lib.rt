//! Tests of dhcp_inspect, by its public calls.
#![tactic(auto)]

#[cfg(test)]
mod file;
#[cfg(test)]
mod packets;
#[cfg(test)]
mod report;
#[cfg(test)]
mod tool;
