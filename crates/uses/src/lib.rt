//! Short callers of the library, proved from the contracts alone: the examples of the documents.
#![tactic(auto)]

mod captures;
mod heard;
mod lease;
mod link;
mod manager;
mod message;
mod messages6;
mod options;
mod options6;
mod relay;
mod rules;
mod upkeep;
mod upkeep6;

pub use captures::ack_count;
pub use heard::{end_of_lease, hear};
pub use lease::{Counter, address_of_lease, lease_of_ack};
pub use link::{QueueLink, SystemWords};
pub use manager::{
    Follow, Interface, ManagedClient, new_client, new_client6, new_info_client, turn,
};
pub use message::{configuration, discover_payload, has_no_type, read_again};
pub use messages6::{lease_of_reply, request_of_offer, solicit_payload};
pub use options::{copy_option, insert_parsed, subnet_mask};
pub use options6::{ask_for_prefix, status_of};
pub use relay::{RelayAgent, answer_through_two};
pub use rules::Repeater;
pub use upkeep::{address_in_use, follow_poll, give_up, keep_turn};
pub use upkeep6::{address_in_use6, follow_poll6, give_up6, keep_turn6};
