//! Tests of dhcp6_info and dhcp6_info_play, by their public calls: `client` and `reply` test the
//! first, `tool` the second, and `parts` is what `client` and `reply` share.
#![tactic(auto)]

#[cfg(test)]
mod client;
#[cfg(test)]
mod parts;
#[cfg(test)]
mod reply;
#[cfg(test)]
mod tool;
