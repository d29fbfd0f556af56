// Numbers as text, and the line of a record.
ghost use Rattle.std.specs.Prelude.{◌≡◌, [], ◌∷◌, ◌++◌, ◌+◌, ◌≤◌, ◌<◌, length, set};
ghost use Rattle.std.proofs.lemmas.List.Edits.{sets};
ghost use Rattle.journal_records.specs.Text.{Adds, Puts, decimal, hex, place_most};
ghost use Rattle.journal_records.specs.Text.{digit as Text·digit};
ghost use Rattle.journal_records.specs.Listing.{fields_line};

use error_entry::ErrorEntry;
use octets::slices::put;
use types::NodeId;

// A text that is written to the front of a buffer, and how long it is. What would lie past the buffer's end is dropped.
// Digits are made here: `{:X}` states no output, and `write!` to a slice is of `std::io`, which no library crate here needs.
// Each call asks for room under `place_most` for what it adds: an invariant of `len` could not say how much that is.
#[derive(Drop)]
pub(crate) struct Line<'a> {
    out: &'a mut [u8],
    pub(crate) len: usize,
}

impl<'a> Line<'a> {
    pub(crate) fn new(out: &'a mut [u8]) -> Line<'a>
        ensures same_reference { result.out.ghost_name ≡ out.entry.ghost_name }
        ensures empty { (result.len ≡ 0) × (result.out.now ≡ out.old) }
    {
        Line { out, len: 0 }
    }

    pub(crate) fn text(&mut self, text: &[u8])
        requires { self.old.len + length text.now ≤ place_most }
        ensures { Adds text.now self.old self.new }
    {
        put(self.out, self.len, text);
        self.len += text.len();
    }

    // A column, and what ends it.
    #[tactic(auto, using(crate::proofs::TextLaws::decimal_ten))]
    pub(crate) fn number(&mut self, v: u32, end: u8)
        requires { self.old.len + 10 ≤ place_most }
        ensures adds { Adds (decimal v ++ end ∷ []) self.old self.new }
        ensures short { self.new.len ≤ self.old.len + 11 }
    {
        let next = put_decimal(v, self.len, self.out);
        put_octet(self.out, next, end);
        self.len = next + 1;
    }

    fn code(&mut self, v: u64, digits: usize, end: u8)
        requires { self.old.len + digits ≤ place_most }
        ensures adds { Adds (hex digits v ++ end ∷ []) self.old self.new }
        ensures short { self.new.len ≤ self.old.len + digits + 1 }
    {
        put_hex(v, digits, self.len, self.out);
        let next = self.len + digits;
        put_octet(self.out, next, end);
        self.len = next + 1;
    }
}

// Stores `b` at place `at`, if there is one.
fn put_octet(out: &mut [u8], at: usize, b: u8)
    ensures { out.new ≡ set out.old at b }
{
    if at < out.len() {
        out[at] = b;
    }
}

// Writes `v` in decimal from place `at` on, and answers the place after it: the digits in front of the last are those of a tenth. The place
// goes from call to call by value, so that it stays in a register: in the line it would be loaded and stored for each digit.
#[tactic(auto, unfolding(crate::specs::Text::decimal, crate::specs::Text::decimal_in))]
fn put_decimal(v: u32, at: usize, out: &mut [u8]) -> usize
    requires { at ≤ place_most }
    ensures { Puts (decimal v) at result out.old out.new }
{
    if v < 10 {
        put_octet(out, at, b'0' + v as u8);
        return at + 1;
    }
    let end = put_decimal(v / 10, at, out);
    put_octet(out, end, b'0' + (v % 10) as u8);
    end + 1
}

// Writes `v` with as many hexadecimal digits from place `at` on, the last one first.
#[tactic(auto, using(crate::proofs::TextLaws::hex_step), unfolding(crate::specs::Text::hex))]
fn put_hex(v: u64, digits: usize, at: usize, out: &mut [u8])
    requires { (at ≤ place_most) × (digits ≤ place_most) }
    ensures { out.new ≡ sets out.old at (hex digits v) }
{
    let mut rest = v;
    for i in (0..digits).rev() {
        put_octet(out, at + i, digit((rest % 16) as u8));
        rest /= 16;
    }
}

// `char::from_digit` has small letters.
#[tactic(auto, unfolding(crate::specs::Text::digit))]
fn digit(d: u8) -> u8
    requires { d < 16 }
    ensures { result ≡ Text·digit d }
{
    if d < 10 { b'0' + d } else { b'A' - 10 + d }
}

// Writes the line of a record to the front of `out`, and answers its length.
pub(crate) fn put_line(node: NodeId, entry: ErrorEntry, out: &mut [u8]) -> usize
    ensures { Puts (fields_line node.0 entry) 0 result out.old out.new }
{
    let entry_type = entry.entry_type;
    let mode = entry_type.mode;
    let mut line = Line::new(out);
    line.number(node.0 as u32, b' ');
    line.code(entry.error_code as u64, 4, b' ');
    line.number(u8::from(mode) as u32, b' ');
    line.number(entry_type.profile as u32, b' ');
    line.number(entry.timestamp.seconds, b' ');
    line.number(entry.timestamp.nanoseconds, b' ');
    line.code(entry.additional_information, 16, b'\n');
    line.len
}
