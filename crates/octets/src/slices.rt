// Parts of slices that are defined on every place and length.
ghost use Rattle.std.specs.Prelude.{◌≡◌, ◌+◌, ◌<◌, ◌≢◌, get_or, MatchOption, length, take, drop};
ghost use Rattle.std.proofs.lemmas.List.Edits.{sets};
ghost use Rattle.octets.specs.Mark.{is_marked};
ghost use Rattle.octets.specs.Part.{Part};
ghost use Rattle.octets.specs.Trim.{trimmed_length, TrimsTo, ZerosFrom};

use crate::little_endian::Number;

// The octets of `s` from place `at` on; none where that is past the end.
pub fn tail(s: &[u8], at: usize) -> &[u8]
    ensures { Part s.entry at (drop at s.now) result }
{
    &s[at.min(s.len())..]
}

// The first `n` octets of `s`, or all where it has fewer.
pub fn front(s: &[u8], n: usize) -> &[u8]
    ensures { Part s.entry 0 (take n s.now) result }
{
    &s[..n.min(s.len())]
}

// The octet of `s` at place `at`, or 0 past the end.
pub fn byte_at(s: &[u8], at: usize) -> u8
    ensures { result ≡ get_or s.now at 0 }
{
    s.get(at).copied().unwrap_or(0)
}

#[tactic(auto, unfolding(crate::specs::Mark::is_marked))]
// Whether the first octets of `s` are those of a file's mark. Octets past the end count as 0, as `is_marked` has it:
// `starts_with` says no of a shorter slice.
pub fn has_mark(s: &[u8], mark: [u8; 3]) -> bool
    ensures { result ≡ is_marked mark s.now }
{
    byte_at(s, 0) == mark[0] && byte_at(s, 1) == mark[1] && byte_at(s, 2) == mark[2]
}

// Copies `src` into `dst` from place `at` on; what would lie past the end is dropped.
#[tactic(auto, using(crate::proofs::Sets::cut_laws))]
pub fn put(dst: &mut [u8], at: usize, src: &[u8])
    ensures { dst.new ≡ sets dst.old at src.now }
{
    let fitting = front(src, dst.len().saturating_sub(at));
    // Else the compiler makes a call of memcpy for no octets, which costs a frame without a payload 17 ns.
    if fitting.is_empty() {
        return;
    }
    dst[at..at + fitting.len()].copy_from_slice(fitting);
}

// The length of `s` without the zeros at its end.
#[tactic(auto, using(crate::proofs::Trim::trimmed_at, crate::proofs::Trim::trimmed_to_none))]
pub fn trimmed_len(s: &[u8]) -> usize
    ensures { result ≡ trimmed_length s.now }
{
    match last_other(trimmed_by_eight(s)) {
        Some(last) => last + 1,
        None => 0,
    }
}

// The place of the last octet that is not 0.
fn last_other(s: &[u8]) -> Option<usize>
    ensures { MatchOption result (ZerosFrom s.now 0) (λ i. (i < length s.now) × (get_or s.now i 0 ≢ 0) × ZerosFrom s.now (i + 1)) }
{
    s.iter().rposition(|octet| *octet != 0)
}

// `s` without the groups of eight zeros at its end, which one test passes over.
#[tactic(auto, using(crate::proofs::Trim::group_dropped))]
fn trimmed_by_eight(s: &[u8]) -> &[u8]
    ensures front { result.now ≡ take (length result.now) s.now }
    ensures trims { TrimsTo s.now (length result.now) }
{
    let mut kept = s;
    while let Some((before, group)) = kept.split_last_chunk::<8>() {
        if u64::from_octets(*group) != 0 {
            return kept;
        }
        kept = before;
    }
    kept
}
