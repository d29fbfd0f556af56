// The program's streams, and what became of them: how many octets were read from standard input and said on standard
// output, whether the input is at its end, and whether a read or a write has failed. The fields are this module's own, so that no
// other code can count what was not read or not said, or call an end or a failure what was none. No contract tells what the system
// has read and written: `after_read` and `after_write` judge what it answers, and that `read` and `say` hand its answer on is tested
// (tests/journal/run.sh).
ghost use Rattle.std.specs.Prelude.{◌+◌, ◌≤◌, ◌≡◌, length, min};
ghost use Rattle.journal.specs.Rest.{Says};
ghost use Rattle.journal.specs.Streams.{fresh, failing, has_room, AfterRead, AfterWrite, Counted, Open, Reads, Tells};

use std::io;
use std::io::{ErrorKind, Input, Read};

// Counts up to this leave room for what a turn adds to them, and no run reaches it.
const COUNT_MAX: usize = usize::MAX / 2;

// Two flags, and no enum around the counts: both counts hold after the end and after a failure, and a write may fail after the end.
#[derive(Clone, Copy, Debug, PartialEq, Eq)]
pub(crate) struct Streams {
    got: usize,
    said: usize,
    ended: bool,
    failed: bool,
}

// A read or a write has failed.
#[derive(Clone, Copy, Debug, PartialEq, Eq)]
pub(crate) struct Failed;

// The counts are used up. Like a failure, this is said on standard error.
pub(crate) fn tell_too_long(rt: &impl Eprint) {
    let _ = eprintln!(rt; "journal: the input is too long");
}

// A text is not written. Where its reader has gone away nothing is said: a program in Rattle ignores the signal of a closed pipe.
fn tell_unwritten(rt: &impl Eprint, error: io::Error) {
    if error.kind() != ErrorKind::BrokenPipe {
        let _ = eprintln!(rt; "journal: cannot write");
    }
}

// How many octets of `buffer` a read gave, by its answer: never more than `buffer` has.
fn count(got: usize, buffer: &[u8]) -> usize
    ensures { result ≡ min got (length buffer.now) }
{
    got.min(buffer.len())
}

impl Streams {
    pub(crate) fn new() -> Streams
        ensures { result ≡ fresh }
    {
        Streams {
            got: 0,
            said: 0,
            ended: false,
            failed: false,
        }
    }

    pub(crate) fn has_ended(self) -> bool
        ensures { result ≡ self.ended }
    {
        self.ended
    }

    pub(crate) fn has_room(self) -> bool
        ensures { result ≡ has_room self }
    {
        self.got <= COUNT_MAX && self.said <= COUNT_MAX
    }

    // A read or a write has failed.
    fn failing(&mut self) -> Failed
        ensures { self.new ≡ failing self.old }
    {
        self.failed = true;
        Failed
    }

    // What the read of `buffer` brought about, by what it answered: how many octets are in front of the buffer.
    fn after_read(&mut self, got: io::Result<usize>, buffer: &[u8]) -> Result<usize, Failed>
        requires { Counted (self.old.got + length buffer.now) }
        ensures { AfterRead self.old self.new got (length buffer.now) result }
    {
        match got {
            Err(_) => Err(self.failing()),
            Ok(n) => {
                let len = count(n, buffer);
                *self = Streams {
                    got: self.got + len,
                    ended: len == 0,
                    ..*self
                };
                Ok(len)
            }
        }
    }

    // What writing `n` octets brought about, by whether all were written.
    fn after_write(&mut self, all: bool, n: usize) -> Result<(), Failed>
        requires { Counted (self.old.said + n) }
        ensures { AfterWrite self.old self.new all n result }
    {
        if !all {
            return Err(self.failing());
        }
        self.said += n;
        Ok(())
    }

    // Reads to the front of `buffer`, which is not empty: what a read into nothing gives looks like the end of the input.
    pub(crate) fn read(
        &mut self,
        rt: &(impl Input + Eprint),
        buffer: &mut [u8],
    ) -> Result<usize, Failed>
        requires { Open self.old × ((1 ≤ length buffer.old) × Counted (self.old.got + length buffer.old)) }
        ensures { Reads self.old self.new (length buffer.new) result }
    {
        let answer = rt.reader().read(buffer);
        let reading = self.after_read(answer, buffer);
        if reading.is_err() {
            let _ = eprintln!(rt; "journal: cannot read");
        }
        reading
    }

    // Writes the text that is due at the place up to which the listing is said.
    pub(crate) fn say(&mut self, rt: &(impl Print + Eprint), text: &[u8]) -> Result<(), Failed>
        requires { Says self.old text.now × Counted (self.old.said + length text.now) }
        ensures { Tells self.old self.new (length text.now) result }
    {
        let written = rt.write_all(text);
        let told = self.after_write(written.is_ok(), text.len());
        if let Err(e) = written {
            tell_unwritten(rt, e);
        }
        told
    }
}
