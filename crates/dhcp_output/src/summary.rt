//! How many outputs there are of each kind, and the text that says it.

ghost use Rattle.std.specs.Prelude.{◌≡◌, map};
ghost use Rattle.std.specs.List.{count_by};
ghost use Rattle.dhcp_wire.specs.Outcome.{Makes};
ghost use Rattle.dhcp_output.specs.Output.{
  count_of,
  is_of,
  plain_output,
  plain_report,
  summary_text,
};

use crate::{Output, OutputWhat};
use dhcp_wire::{Bytes, DhcpError};
use std::alloc::Global;

/// The kinds of what is reported, of which a summary has the counts.
#[derive(Clone, Copy, Debug, PartialEq, Eq)]
pub enum OutputKind {
    /// The link took a message.
    Handed,
    /// The link refused a message.
    Refused,
    /// The client came to a state.
    Changed,
    /// The client failed.
    Failed,
}

impl OutputWhat {
    /// Whether what is reported is of this kind; a state may be of any client.
    pub fn is_of(&self, kind: OutputKind) -> bool
        ensures { result ≡ is_of kind (plain_report self.now) }
    {
        match self {
            OutputWhat::Handed(_) => matches!(kind, OutputKind::Handed),
            OutputWhat::Refused(_) => matches!(kind, OutputKind::Refused),
            OutputWhat::Changed(_) => matches!(kind, OutputKind::Changed),
            OutputWhat::Failed(_) => matches!(kind, OutputKind::Failed),
        }
    }
}

/// The text that says how many events a script has, and how many outputs of each kind its replay
/// has: a line for each number, and a last line `ok`. Out of memory is the only error.
#[tactic(auto, unfolding(crate::specs::Output::summary_text))]
pub fn print_summary(alloc: Global, events: usize, outputs: &[Output]) -> Result<Bytes, DhcpError>
    ensures { Makes (λ text. text) result (summary_text events (map plain_output outputs.now)) }
{
    let handed = count(outputs, OutputKind::Handed);
    let refused = count(outputs, OutputKind::Refused);
    let changed = count(outputs, OutputKind::Changed);
    let failed = count(outputs, OutputKind::Failed);
    let mut text = String::new(alloc);
    write!(
        text,
        "events {events}\nhanded {handed}\nrefused {refused}\n\
         changed {changed}\nfailed {failed}\nok\n"
    )?;
    Ok(Bytes::from(text.into_bytes()))
}

// How many outputs there are of this kind.
fn count(outputs: &[Output], kind: OutputKind) -> usize
    ensures { result ≡ count_of kind (map plain_output outputs.now) }
{
    count_each(outputs, kind)
}

// The same, output by output.
fn count_each(outputs: &[Output], kind: OutputKind) -> usize
    ensures { result ≡ count_by (λ output. is_of kind (plain_report output.what)) outputs.now }
{
    outputs
        .iter()
        .filter(|output| output.what.is_of(kind))
        .count()
}
