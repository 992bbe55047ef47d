//! Tests of dhcp6_msg and dhcp6_client, by their public calls.
#![tactic(auto)]

#[cfg(test)]
mod client;
#[cfg(test)]
mod config;
#[cfg(test)]
mod lease;
#[cfg(test)]
mod message;
#[cfg(test)]
mod message_table;
#[cfg(test)]
mod reply;
#[cfg(test)]
mod state;
#[cfg(test)]
mod verdict;
