// Numbers of 16, 32 and 64 bits, low octet first: the order of every number in a section (01, module 5).
ghost use Rattle.std.specs.Prelude.{◌≡◌, ◌≤◌, ℕ};
ghost use Rattle.std.proofs.Common.{rules};
ghost use Rattle.std.proofs.lemmas.List.Edits.{sets};
ghost use Rattle.octets.specs.Numbers.{le, le_at, le_bytes};

use crate::slices::{put, tail};

// A number that N octets hold.
pub trait Number<const N: usize>: Copy {
    ghost value: { Self → ℕ };

    fn from_octets(octets: [u8; N]) -> Self
        ensures { value result ≡ le octets.entry };

    fn octets(self) -> [u8; N]
        ensures { result ≡ le_bytes N (value self) };

    // So that an array of N octets fits in memory.
    ghost small: { N ≤ 8 };
}

impl Number<2> for u16 {
    ghost value = { λ v. v };

    ghost small = { Prim.search rules };

    fn from_octets(octets: [u8; 2]) -> u16
        ensures { result ≡ le octets }
    {
        u16::from_le_bytes(octets)
    }

    fn octets(self) -> [u8; 2]
        ensures { result ≡ le_bytes 2 self }
    {
        u16::to_le_bytes(self)
    }
}

impl Number<4> for u32 {
    ghost value = { λ v. v };

    ghost small = { Prim.search rules };

    fn from_octets(octets: [u8; 4]) -> u32
        ensures { result ≡ le octets }
    {
        u32::from_le_bytes(octets)
    }

    fn octets(self) -> [u8; 4]
        ensures { result ≡ le_bytes 4 self }
    {
        u32::to_le_bytes(self)
    }
}

impl Number<8> for u64 {
    ghost value = { λ v. v };

    ghost small = { Prim.search rules };

    fn from_octets(octets: [u8; 8]) -> u64
        ensures { result ≡ le octets }
    {
        u64::from_le_bytes(octets)
    }

    fn octets(self) -> [u8; 8]
        ensures { result ≡ le_bytes 8 self }
    {
        u64::to_le_bytes(self)
    }
}

// The number that the N octets of `s` from place `at` on make. The length is tested once: where all are there, they are read
// at once.
#[tactic(auto, using(crate::proofs::Le::of_front, crate::proofs::Le::of_padded))]
pub fn get_le<const N: usize, T: Number<N>>(s: &[u8], at: usize) -> T
    ensures { T.value result ≡ le_at N at s.now }
{
    let t = tail(s, at);
    match t.first_chunk::<N>() {
        Some(octets) => T::from_octets(*octets),
        None => {
            let mut octets = [0u8; N];
            put(&mut octets, 0, t);
            T::from_octets(octets)
        }
    }
}

// Writes the octets of a number at place `at`.
pub fn put_le<const N: usize, T: Number<N>>(dst: &mut [u8], at: usize, v: T)
    ensures { dst.new ≡ sets dst.old at (le_bytes N (T.value v)) }
{
    put(dst, at, &v.octets());
}
