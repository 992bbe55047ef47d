//! Tests of dhcp_replay, dhcp_live, dhcp_output and dhcp_tool: whole lives of clients, from the
//! text of a script to the text of what is printed, and the exit statuses of the program.
#![tactic(auto)]

#[cfg(test)]
mod forms4;
#[cfg(test)]
mod lease4;
#[cfg(test)]
mod lease6;
#[cfg(test)]
mod limits6;
#[cfg(test)]
mod live;
#[cfg(test)]
mod outputs;
#[cfg(test)]
mod packets4;
#[cfg(test)]
mod packets6;
#[cfg(test)]
mod program;
#[cfg(test)]
mod reboot4;
#[cfg(test)]
mod renewal4;
#[cfg(test)]
mod renewal6;
#[cfg(test)]
mod requests;
#[cfg(test)]
mod scripts;
#[cfg(test)]
mod session_bytes;
#[cfg(test)]
mod statuses;
#[cfg(test)]
mod words;
