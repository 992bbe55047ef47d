//! Tests of dhcp4_msg, dhcp4_lease and dhcp4_client, by their public calls.
#![tactic(auto)]

#[cfg(test)]
mod client;
#[cfg(test)]
mod config;
#[cfg(test)]
mod lease;
#[cfg(test)]
mod message;
#[cfg(test)]
mod message_table;
#[cfg(test)]
mod nack;
#[cfg(test)]
mod option;
#[cfg(test)]
mod route;
#[cfg(test)]
mod state;
#[cfg(test)]
mod verdict;
