//! What a client asks for, and what a server decides, RFC 2131 sections 4.3.1 and 4.3.2.

/// What a client asks for.
#[derive(Clone, Copy)]
pub enum Query {
    /// An offer of an address.
    Discover,
    /// This address, as a number.
    Request(u32),
}

/// What a server decides.
#[derive(Clone, Copy)]
pub enum Decision {
    /// Nothing is sent.
    Silence,
    /// An Offer of this address, as a number.
    Offer(u32),
    /// An Ack of this address, as a number.
    Grant(u32),
    /// A Nack.
    Refuse,
}
