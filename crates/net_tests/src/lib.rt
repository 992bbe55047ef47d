//! Tests of dhcp4_net and dhcp4_net_play, by their public calls.
#![tactic(auto)]

#[cfg(test)]
mod networks;
#[cfg(test)]
mod scripts;
#[cfg(test)]
mod tool;
