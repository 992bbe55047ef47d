//! The times T1 and T2 of a lease whose message says none.

ghost use Rattle.std.specs.Prelude.{◌≡◌};
ghost use Rattle.dhcp4_msg.specs.LeaseTime as times;

/// T1 of a lease that lasts so many seconds, in seconds: half of it, rounded down. RFC 2131 section
/// 4.4.5.
pub fn default_renewal_time(lease_time_sec: u32) -> u32
    ensures { result ≡ times.default_renewal_time lease_time_sec }
{
    lease_time_sec / 2
}

/// T2 of a lease that lasts so many seconds, in seconds: seven eighths of it, rounded down. RFC
/// 2131 section 4.4.5.
pub fn default_rebinding_time(lease_time_sec: u32) -> u32
    ensures { result ≡ times.default_rebinding_time lease_time_sec }
{
    (7 * u64::from(lease_time_sec) / 8) as u32
}
