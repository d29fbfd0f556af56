// What the program writes to, and the journal of what the box hands out (01, "Journal"): a record for each entry, in a file where
// one is named.
ghost use Rattle.std.specs.Prelude.{◌≡◌, None};

use error_entry::ErrorEntry;
use journal_records::JOURNAL_RECORD_LEN;
use std::fs::File;
use std::io;
use std::io::{ErrorKind, Write};
use types::NodeId;

// The standard streams, and the journal.
#[derive(Drop)]
pub struct Out<'a, R> {
    pub rt: &'a R,
    // Where records go; none where no file is named, or writing has failed.
    pub file: Option<&'a File>,
    // Records made.
    pub records: u64,
}

impl<'a, R: Eprint> Out<'a, R> {
    pub fn new(rt: &'a R) -> Self
        ensures { result ≡ record { rt = rt.entry; file = None; records = 0 } }
    {
        Out {
            rt,
            file: None,
            records: 0,
        }
    }

    // With a journal, which begins with mark and version; none where these cannot be written.
    pub fn with_journal(rt: &'a R, file: &'a File) -> Option<Self> {
        let mut out = Out::new(rt);
        out.file = Some(file);
        out.keep(b"PLB\x01\x00");
        out.file.is_some().then_some(out)
    }

    // Writes octets to the journal. Once that fails, which is said, nothing goes there.
    fn keep(&mut self, octets: &[u8]) {
        let Some(mut file) = self.file else {
            return;
        };
        if file.write_all(octets).is_err() {
            complain(self.rt, "cannot write the journal");
            self.file = None;
        }
    }

    // Makes the record of an entry that was handed out, and writes it to the journal. Every entry that is handed out has one.
    pub fn record(&mut self, id: u8, e: ErrorEntry) {
        let mut octets = [0u8; JOURNAL_RECORD_LEN];
        if journal_records::write(NodeId(id), e, &mut octets).is_ok() {
            self.records = self.records.saturating_add(1);
            self.keep(&octets);
        }
    }

    // The journal is whole, as far as nothing failed.
    pub fn close(&self) {
        let Some(file) = self.file else {
            return;
        };
        if let Err(e) = file.sync_all() {
            // A pipe or a terminal has no disk behind it.
            if e.kind() != ErrorKind::InvalidInput {
                complain(self.rt, "cannot write the journal");
            }
        }
    }
}

pub fn complain(rt: &impl Eprint, text: &str) {
    let _ = eprintln!(rt; "demo: {text}");
}

// The file is not made: says why, in the system's words.
pub fn fail(rt: &(impl Eprint + Alloc), path: &str, e: io::Error) {
    let _ = match format!(in rt.alloc(); "{e}") {
        Ok(text) => {
            let words = before(text.as_str(), " (os error ");
            eprintln!(rt; "demo: {path}: {words}")
        }
        Err(_) => eprintln!(rt; "demo: {path}: {e}"),
    };
}

// What stands in front of a mark.
fn before<'a>(text: &'a str, mark: &str) -> &'a str {
    text.split_once(mark).map_or(text, |(front, _)| front)
}
