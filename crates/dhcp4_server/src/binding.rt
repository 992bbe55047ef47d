//! The binding of an address to a client, RFC 2131 section 4.3.1.

ghost use Rattle.std.specs.Prelude.{◌≡◌};
ghost use Rattle.dhcp4_server.specs.Binding as bindings;

/// What a server keeps of an address that it has granted.
#[derive(Clone, Copy)]
pub struct Binding {
    /// The transaction id of the client, by which the server knows it.
    pub xid: u32,
    /// The moment, in milliseconds, from which the address is free for other clients.
    pub end: u64,
}

/// Whether an address with this binding, or with none, is free for a client at a moment: it is
/// bound to that client, or its time is over.
pub(crate) fn is_free(binding: Option<Binding>, xid: u32, now: u64) -> bool
    ensures { result ≡ bindings.is_free_by binding xid now }
{
    match binding {
        None => true,
        Some(binding) => binding.xid == xid || binding.end <= now,
    }
}

/// The moment from which an address with this binding is free for every client; 0 with none.
pub(crate) fn end_of(binding: Option<Binding>) -> u64
    ensures { result ≡ bindings.end_of binding }
{
    match binding {
        None => 0,
        Some(binding) => binding.end,
    }
}
