//! The times of a lease, RFC 2131 section 4.4.5.

ghost use Rattle.std.specs.Prelude.{◌≡◌, ◌<◌, ◌-◌, ◌^◌, IfSome, IsTrue};
ghost use Rattle.dhcp4_lease.specs.Lease as leases;
ghost use Rattle.dhcp_clock.specs.Words.{Draws, DrawsBy};

use dhcp_clock::Words;
use dhcp4_msg::{DhcpV4OptionCode, DhcpV4Options, default_rebinding_time, default_renewal_time};

/// The times of a lease, in seconds.
#[derive(Clone, Copy)]
pub struct LeaseTimes {
    /// T1, in seconds: when it is renewed.
    pub t1_sec: u32,
    /// T2, in seconds: when it is rebound.
    pub t2_sec: u32,
    /// When it ends, in seconds.
    pub lease_time_sec: u32,
}

impl LeaseTimes {
    /// Whether a lease of these times is not rebound before it is renewed, and does not end before
    /// it is rebound: T1 <= T2 <= the end.
    pub fn are_in_order(&self) -> bool
        ensures { result ≡ leases.are_in_order self.now }
    {
        self.t1_sec <= self.t2_sec && self.t2_sec <= self.lease_time_sec
    }
}

/// The times of a message with these options, if it has a lease time and its times are in order.
/// Words that were drawn stay drawn.
#[tactic(auto, unfolding(crate::specs::Lease::read_times, dhcp4_msg::specs::OptionCode::number_of))]
pub fn read_times<W: Words>(options: &DhcpV4Options, words: &mut W) -> Option<LeaseTimes>
    ensures drawn { Draws (W.left words.old) (W.left words.new)
        (leases.read_times options.now) (λ times. times ≡ result) }
    ensures taken { DrawsBy W.gives (leases.read_times options.now) words.old result words.new }
    ensures in_order { IfSome result (λ times. IsTrue (leases.are_in_order times)) }
{
    let lease_time_sec = options.seconds(DhcpV4OptionCode::IpAddressLeaseTime)?;
    let times = times_of(options, lease_time_sec, words);
    if times.are_in_order() {
        Some(times)
    } else {
        None
    }
}

// The times of a lease that lasts so long.
#[tactic(auto, unfolding(crate::specs::Lease::times_of, dhcp4_msg::specs::OptionCode::number_of))]
fn times_of<W: Words>(options: &DhcpV4Options, lease_time_sec: u32, words: &mut W) -> LeaseTimes
    ensures drawn { Draws (W.left words.old) (W.left words.new)
        (leases.times_of options.now lease_time_sec) (λ times. times ≡ result) }
    ensures taken { DrawsBy W.gives (leases.times_of options.now lease_time_sec)
        words.old result words.new }
{
    let renewal = options.seconds(DhcpV4OptionCode::RenewalTime);
    let t1_sec = said_or_drawn(renewal, default_renewal_time(lease_time_sec), words);
    let rebinding = options.seconds(DhcpV4OptionCode::RebindingTime);
    let t2_sec = said_or_drawn(rebinding, default_rebinding_time(lease_time_sec), words);
    LeaseTimes {
        t1_sec,
        t2_sec,
        lease_time_sec,
    }
}

// The time that an option says, or else one about this long.
#[tactic(auto, unfolding(crate::specs::Lease::said_or_drawn))]
fn said_or_drawn<W: Words>(said: Option<u32>, base: u32, words: &mut W) -> u32
    requires { base < 2 ^ 32 - 1 }
    ensures drawn { Draws (W.left words.old) (W.left words.new)
        (leases.said_or_drawn said base) (λ time. time ≡ result) }
    ensures taken { DrawsBy W.gives (leases.said_or_drawn said base) words.old result words.new }
{
    match said {
        Some(seconds) => seconds,
        None if base < 20 => base,
        None => base - 2 + words.next_word() % 4,
    }
}
