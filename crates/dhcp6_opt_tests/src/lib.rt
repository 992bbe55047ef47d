//! Tests of dhcp6_opt, by its public calls.
#![tactic(auto)]

#[cfg(test)]
mod duid;
#[cfg(test)]
mod option;
#[cfg(test)]
mod option_code;
#[cfg(test)]
mod options;
#[cfg(test)]
mod said;
