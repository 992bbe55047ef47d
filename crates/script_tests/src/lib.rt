//! Tests of dhcp_script: texts, limits, versions and the demonstration.
#![tactic(auto)]

#[cfg(test)]
mod demo;
#[cfg(test)]
mod ipv6;
#[cfg(test)]
mod limits;
#[cfg(test)]
mod scripts;
#[cfg(test)]
mod texts;
#[cfg(test)]
mod versions;
