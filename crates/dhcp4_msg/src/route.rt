//! Classless static routes, RFC 3442.

ghost use Rattle.std.specs.Prelude.{◌≡◌, ◌≤◌, length, ok_or};
ghost use Rattle.dhcp_wire.specs.Field.{address_of};
ghost use Rattle.dhcp_wire.specs.Outcome.{Emits, Gives, Reads};
ghost use Rattle.dhcp4_msg.specs.Route as routes;

use dhcp_wire::{Buffer, BufferMut, DhcpError, ErrorKind, Sequence};
use std::alloc::Global;
use std::net::Ipv4Addr;

/// A route: where to, and by which router; RFC 3442. Routes are ordered by destination, then by the
/// length of the prefix, then by router.
#[derive(Clone, Copy, Debug, PartialEq, Eq, PartialOrd, Ord, Hash)]
pub struct DhcpV4ClasslessRoute {
    /// The network; octets past its width are zero where it was read.
    pub destination: Ipv4Addr,
    /// The width of the network's mask, in bits.
    pub prefix_length: u8,
    /// The router.
    pub router: Ipv4Addr,
}

impl DhcpV4ClasslessRoute {
    /// Reads one route. `InvalidDhcpMessage` if and only if there are too few bytes, and then the
    /// position does not move. Does not allocate.
    #[tactic(auto, unfolding(crate::specs::Route::route_at))]
    pub fn parse(buf: &mut Buffer) -> Result<Self, DhcpError>
        ensures { Reads (λ route. route) result buf.old buf.new (routes.route_at buf.old) }
    {
        // width, significant octets, router
        let mut ahead = Buffer::new(buf.get_remains());
        let prefix_length = ahead.get_u8()?;
        let octets = ahead.get_bytes(significant_octets(prefix_length))?;
        let router = ahead.get_ipv4()?;
        *buf = ahead;
        Ok(DhcpV4ClasslessRoute {
            destination: padded_address(octets),
            prefix_length,
            router,
        })
    }

    /// Reads routes up to the end of the bytes, as the value of option 121 has them.
    /// `InvalidDhcpMessage` if and only if the last of them is truncated.
    pub fn parse_list(alloc: Global, value: &[u8]) -> Result<Sequence<Self>, DhcpError>
        ensures { Gives (λ routes. routes) result
            (ok_or (routes.routes_of value.now) ErrorKind.InvalidDhcpMessage) }
    {
        let mut routes = Sequence::new(alloc);
        let mut rest = Buffer::new(value);
        while !rest.is_empty() {
            routes.push(DhcpV4ClasslessRoute::parse(&mut rest)?)?;
        }
        Ok(routes)
    }

    /// Writes the route: its width, the significant octets of its destination, and its router. Out
    /// of memory is the only error; some of the bytes are then written.
    #[tactic(auto, unfolding(crate::specs::Route::written_route))]
    pub fn emit(&self, buf: &mut BufferMut) -> Result<(), DhcpError>
        ensures { Emits result buf.old buf.new (routes.written_route self.now) }
    {
        buf.write_u8(self.prefix_length)?;
        let octets = self.destination.octets();
        buf.write_bytes(&octets[..significant_octets(self.prefix_length)])?;
        buf.write_ipv4(self.router)
    }

    // How many bytes the written route has: nine at most.
    #[tactic(auto, unfolding(crate::specs::Route::written_route))]
    pub(crate) fn written_len(&self) -> usize
        ensures len { result ≡ length (routes.written_route self.now) }
        ensures short { result ≤ 9 }
    {
        let octets = self.destination.octets();
        let significant = &octets[..significant_octets(self.prefix_length)];
        1 + significant.len() + self.router.octets().len()
    }
}

// How many octets of a destination stand for a mask of this width.
fn significant_octets(width: u8) -> usize
    ensures { result ≡ routes.significant_octets width }
{
    usize::from(width).div_ceil(8).min(4)
}

// The address that begins with these octets; those not given are zero.
fn padded_address(octets: &[u8]) -> Ipv4Addr
    requires { length octets.now ≤ 4 }
    ensures { result ≡ address_of (routes.padded_octets octets.now) }
{
    let mut padded = [0; 4];
    padded[..octets.len()].copy_from_slice(octets);
    Ipv4Addr::from(padded)
}
