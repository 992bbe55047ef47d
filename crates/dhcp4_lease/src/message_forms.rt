//! Which forms the messages of a client have.

/// Which forms the messages of a client have, and with them which answers count and how often an
/// offer is requested. Discover, the Request of an offer and that of a lease which was held before
/// are the same in both (RFC 2131, sections 4.4.1 and 4.3.2), but for option 61.
#[derive(Clone, Copy, Debug, Default, PartialEq, Eq)]
pub enum DhcpV4MessageForms {
    /// The messages of mozim, byte for byte, for callers that need them: a Request that renews or
    /// rebinds names address and server in options 50 and 54, and a Release has no `ciaddr`; a
    /// Release and a Request that renews go to `siaddr`; a Nack of any server counts; an offer is
    /// requested until an answer comes or the time limit is over; and option 61 is there even if no
    /// identifier is set.
    #[default]
    Mozim,
    /// The messages of RFC 2131, section 4.3.6 and table 5 (sections 3.1, 4.3.2, 4.4.5 and 4.4.6),
    /// by which servers renew, rebind and free a lease: a Request that renews or rebinds, and a
    /// Release, name the address in `ciaddr` alone. A Release and a Request that renews go to the
    /// server identifier of the lease; where it has none, the Release goes to `siaddr` and the
    /// Request to all. A Nack counts only from that server, but of an offer or lease without an
    /// identifier, and of a lease that was held before, from any. An offer is requested four times
    /// at most. Option 61 is left out if no identifier is set (RFC 2132, section 9.14: at least two
    /// bytes).
    Rfc2131,
}
