// Numbers of 16 bits, high octet first: the EtherType is the one number of a frame that is sent so (IEEE 802.3, 3.2.6).
ghost use Rattle.std.specs.Prelude.{◌≡◌};
ghost use Rattle.octets.specs.Numbers.{be_at, be_bytes};

use crate::slices::{byte_at, tail};

// The number that the 2 octets of `s` from place `at` on make.
#[tactic(auto, unfolding(crate::specs::Numbers::be_at))]
pub fn get_u16_be(s: &[u8], at: usize) -> u16
    ensures { result ≡ be_at 2 at s.now }
{
    let t = tail(s, at);
    // Faster than `u16::from_be_bytes`, of which the compiler makes a compare of 16 bits in memory: 1 ns of every frame.
    0x100 * (byte_at(t, 0) as u16) + (byte_at(t, 1) as u16)
}

// The 2 octets of a number.
pub fn u16_be(v: u16) -> [u8; 2]
    ensures { result ≡ be_bytes 2 v }
{
    v.to_be_bytes()
}
