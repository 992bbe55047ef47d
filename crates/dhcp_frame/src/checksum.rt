//! The checksum of RFC 1071, which the headers of IPv4 and UDP have.

ghost use Rattle.std.specs.Prelude.{◌≡◌, ◌≤◌, ◌*◌, length};
ghost use Rattle.dhcp_frame.specs.Checksum as Checksum;
ghost use Rattle.dhcp_frame.specs.Checksum.{AreBytes, IsCarried};

// The sum of the 16-bit words of these bytes, with all its carries. A last byte alone is followed
// by a zero byte.
#[tactic(auto, using(crate::proofs::Sums::sums))]
pub(crate) fn word_sum(bytes: &[u8]) -> u32
    requires { length bytes.now ≤ 65535 }
    ensures value { result ≡ Checksum.word_sum bytes.now }
    ensures bytes { AreBytes bytes.now }
    ensures small { result ≤ 65535 * length bytes.now }
{
    let mut left = bytes;
    let mut sum = 0u32;
    while let [high, low, rest @ ..] = left {
        sum += u32::from(*high) * 256 + u32::from(*low);
        left = rest;
    }
    match left {
        [high, ..] => sum + u32::from(*high) * 256,
        [] => sum,
    }
}

// The ones'-complement sum of words that have this plain sum: its carries are added back in.
#[tactic(auto, using(crate::proofs::Sums::folded_twice))]
pub(crate) fn carried(sum: u32) -> u16
    ensures { IsCarried sum result }
{
    let once = sum % 65536 + sum / 65536;
    let twice = once % 65536 + once / 65536;
    twice as u16
}

// The checksum of these bytes.
#[tactic(auto, using(crate::proofs::Sums::sums))]
pub(crate) fn checksum(bytes: &[u8]) -> u16
    requires { length bytes.now ≤ 65535 }
    ensures { result ≡ Checksum.checksum bytes.now }
{
    !carried(word_sum(bytes))
}
