// Answers as a caller in C gets them: a number, and what goes with it through out-parameters. An export takes no Result.
ghost use Rattle.std.specs.Prelude.{◌≡◌, max};
ghost use Rattle.types.specs.Causes.{cause_number};
ghost use Rattle.section.specs.Write.{write_cause, unnamed_answer};
ghost use Rattle.c_values.specs.Answers.{length_after, error_octet, octet_after};

use types::causes::TOO_SHORT;
use types::hal::PowerlinkError;

// A writer's answer: the number, and the length where octets were written.
pub fn written_or(answer: Result<usize, PowerlinkError>, written: &mut usize) -> u8
    ensures value { result ≡ (write_cause answer).number }
    ensures written_after { written.new ≡ length_after answer written.old }
{
    match answer {
        Ok(n) => {
            *written = n;
            0
        }
        Err(e) => e.number(),
    }
}

// The same of a writer that also refuses codes: the octet where 01's table returns one.
pub fn told(answer: Result<usize, PowerlinkError>, written: &mut usize, octet: &mut u8) -> u8
    ensures value { result ≡ (write_cause answer).number }
    ensures written_after { written.new ≡ length_after answer written.old }
    ensures octet_after { octet.new ≡ octet_after answer octet.old }
{
    match answer {
        Ok(len) => {
            *written = len;
            0
        }
        Err(e) => refusal(e, octet),
    }
}

// A refusal: the number, and the octet where 01's table returns one, with 4 to 7.
pub fn refusal(e: PowerlinkError, octet: &mut u8) -> u8
    ensures value { result ≡ cause_number e }
    ensures octet_after { octet.new ≡ error_octet e octet.old }
{
    if let Some(b) = e.byte() {
        *octet = b;
    }
    e.number()
}

// A code that names nothing, where `needed` octets would go into `len`: cause 1 is tested first.
pub fn unnamed(e: PowerlinkError, needed: usize, len: usize, octet: &mut u8) -> u8
    ensures value { result ≡ (write_cause (unnamed_answer needed e len)).number }
    ensures octet_after { octet.new ≡ octet_after (unnamed_answer needed e len) octet.old }
{
    if len < needed {
        return TOO_SHORT;
    }
    refusal(e, octet)
}

// What is needed for `used` octets, where fewer than `least` are padded. `section` has its own, of its own least, which is `max` too: one
// function for both would be `max` by another name.
pub fn padded_len(least: usize, used: usize) -> usize
    ensures { result ≡ max least used }
{
    least.max(used)
}
