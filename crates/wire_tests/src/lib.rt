//! Tests of dhcp_wire, dhcp_clock, dhcp_frame and dhcp_stream, by their public calls.
#![tactic(auto)]

#[cfg(test)]
mod buffer;
#[cfg(test)]
mod error;
#[cfg(test)]
mod frame;
#[cfg(test)]
mod mem_link;
#[cfg(test)]
mod raw_option;
#[cfg(test)]
mod sequence;
#[cfg(test)]
mod stream;
#[cfg(test)]
mod text_field;
#[cfg(test)]
mod value;
#[cfg(test)]
mod wait;
