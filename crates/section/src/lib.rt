// Writing a section, which is a frame without its Ethernet header: octets, a payload, and zeros up to the smallest size
// that Ethernet carries.
#![tactic(auto)]

ghost use Rattle.std.specs.Prelude.{◌≡◌, ◌++◌, leb, ltb, length, replicate, ◌+◌, ◌-◌, ◌≤◌};
ghost use Rattle.std.proofs.lemmas.List.Edits.{sets};
ghost use Rattle.types.specs.Codes.{pick};
ghost use Rattle.section.specs.Write.{min_section, padded, Writes};

use octets::slices::put;
use types::basic::ETH_LEN;
use types::hal::PowerlinkError;

// The smallest section, and with the Ethernet header the smallest frame (IEEE 802.3, 3.2.8).
pub const MIN_SECTION: usize = 46;

pub const MIN_FRAME: usize = ETH_LEN + MIN_SECTION;

// The weight of a flag in its octet where it is set, and 0 where it is not.
// Not `weight * u8::from(on)`, which is no plainer: the two cases are what is meant.
pub fn flag(on: bool, weight: u8) -> u8
    ensures { (result ≡ pick on weight 0) × (result ≤ weight) }
{
    if on { weight } else { 0 }
}

// Writes octets to the front of `target`, if all of them fit.
pub fn write(octets: &[u8], target: &mut [u8]) -> Result<usize, PowerlinkError>
    ensures { Writes octets.now result target.old target.new }
{
    let len = octets.len();
    if target.len() < len {
        return Err(PowerlinkError::BufferTooShort);
    }
    put(target, 0, octets);
    Ok(len)
}

// Writes a section of `header`, `payload` and the zeros after them, if it fits. They come as two slices, since they are joined in
// the target alone.
pub fn write_section(
    header: &[u8],
    payload: &[u8],
    target: &mut [u8],
) -> Result<usize, PowerlinkError>
    ensures { Writes (padded (header.now ++ payload.now)) result target.old target.new }
{
    write_behind(b"", header, payload, target)
}

// Writes the octets `front` and behind them such a section, if both fit.
pub fn write_behind(
    front: &[u8],
    header: &[u8],
    payload: &[u8],
    target: &mut [u8],
) -> Result<usize, PowerlinkError>
    ensures { Writes (front.now ++ padded (header.now ++ payload.now)) result target.old target.new }
{
    let used = header.len() + payload.len();
    let at = front.len();
    if !fits(at, used, target.len()) {
        return Err(PowerlinkError::BufferTooShort);
    }
    put_behind(front, header, payload, target);
    Ok(at + padded_len(used))
}

// Whether a section of `used` octets and the zeros after them fits `len` octets behind the first `at`.
pub fn fits(at: usize, used: usize, len: usize) -> bool
    ensures { result ≡ leb (at + (used + (min_section - used))) len }
{
    at <= len && padded_len(used) <= len - at
}

// How many octets a section has of which `used` are not padding.
fn padded_len(used: usize) -> usize
    ensures { result ≡ used + (min_section - used) }
{
    used.max(MIN_SECTION)
}

// Copies both to a target that they fit: the zeros first, and the rest over them.
fn put_behind(front: &[u8], header: &[u8], payload: &[u8], target: &mut [u8])
    requires { length (front.now ++ padded (header.now ++ payload.now)) ≤ length target.old }
    ensures { target.new ≡ sets target.old 0 (front.now ++ padded (header.now ++ payload.now)) }
{
    let at = front.len();
    clear(target, at, header.len() + payload.len());
    put(target, 0, front);
    put(target, at, header);
    put(target, at + header.len(), payload);
}

// Clears the smallest section from place `at` on, where `used` octets do not fill it: all of it, since a number of zeros
// that is known to the compiler takes three stores.
fn clear(target: &mut [u8], at: usize, used: usize)
    ensures { target.new ≡ pick (ltb used min_section) (sets target.old at (replicate min_section 0)) target.old }
{
    if used < MIN_SECTION {
        let zeros = [0u8; MIN_SECTION];
        put(target, at, &zeros);
    }
}
