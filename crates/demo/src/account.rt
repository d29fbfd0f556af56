// A head's account: what 01's rules make of the calls, counted from their answers alone. Nothing here looks into the octets of
// a state. No run counts as far as the largest number.

ghost use Rattle.std.specs.Prelude.{◌≡◌};
ghost use Rattle.demo.specs.World.{first_head, in_batch};

// An open batch.
#[derive(Clone, Copy)]
pub struct Batch {
    pub entries: u64,
    // The first answer that carried it.
    pub opened_at: u64,
    // Once the box has booked it: the first frame of the managing node that tells of that.
    pub told_from: Option<u64>,
}

#[derive(Clone, Copy)]
pub struct Head {
    // The head as a sender on the line, and as the maker of its entries.
    pub number: usize,
    pub id: u8,
    // Whether the box has registered it.
    pub registered: bool,
    // Entries raised and not refused, and those refused.
    pub accepted: u64,
    pub refused: u64,
    pub waiting: u64,
    pub open: Option<Batch>,
    // Entries booked, and those of them that were handed out.
    pub booked: u64,
    pub taken: u64,
    // Answers sent; the first that was neither given to the box nor lost; how many were lost, and how often one was repeated.
    pub sent: u64,
    pub read: u64,
    pub lost: u64,
    pub repeated: u64,
    // The first frame of the managing node that was neither given to the head nor lost.
    pub heard: u64,
}

impl Head {
    pub fn new(number: usize, id: u8) -> Self
        ensures { result ≡ first_head number id }
    {
        Self {
            number,
            id,
            registered: false,
            accepted: 0,
            refused: 0,
            waiting: 0,
            open: None,
            booked: 0,
            taken: 0,
            sent: 0,
            read: 0,
            lost: 0,
            repeated: 0,
            heard: 0,
        }
    }

    // Heads 0 to 3 are ours; 4 is another supplier's. It goes by the number, which is the place on the line too: an enum beside it could
    // say otherwise.
    pub fn is_ours(&self) -> bool {
        self.number < 4
    }

    // How many entries its next answer carries: at most four, and six of the other supplier's.
    pub fn carried(&self) -> u64 {
        let most = if self.is_ours() { 4 } else { 6 };
        match self.open {
            Some(batch) => batch.entries,
            None => self.waiting.min(most),
        }
    }

    // Entries that the box has and that were not handed out.
    pub fn in_book(&self) -> u64 {
        self.booked.saturating_sub(self.taken)
    }

    // Entries of the open batch.
    pub fn in_batch(&self) -> u64
        ensures { result ≡ in_batch self.now.«open» }
    {
        self.open.map_or(0, |batch| batch.entries)
    }

    // Entries that are open or waiting.
    pub fn held(&self) -> u64 {
        self.in_batch().saturating_add(self.waiting)
    }

    // Accepted entries that the box has not booked.
    pub fn unbooked(&self) -> u64 {
        match self.open {
            Some(batch) if batch.told_from.is_none() => self.held(),
            _ => self.waiting,
        }
    }

    // Entries were raised, and accepted or not.
    pub fn has_raised(&mut self, n: u64, accepted: bool) {
        if accepted {
            self.accepted = self.accepted.saturating_add(n);
            self.waiting = self.waiting.saturating_add(n);
        } else {
            self.refused = self.refused.saturating_add(n);
        }
    }

    // An answer was written and sent: with no batch open, it opens one.
    pub fn has_answered(&mut self) {
        let entries = self.carried();
        if self.open.is_none() && 0 < entries {
            self.waiting = self.waiting.saturating_sub(entries);
            self.open = Some(Batch {
                entries,
                opened_at: self.sent,
                told_from: None,
            });
        }
        self.sent = self.sent.saturating_add(1);
    }

    // The box is given the answer with this number.
    fn was_read(&mut self, number: u64) {
        if number < self.read {
            self.repeated = self.repeated.saturating_add(1);
        } else {
            self.lost = self.lost.saturating_add(number - self.read);
            self.read = number.saturating_add(1);
        }
    }

    // The box was given the answer with this number, and booked it or not; the managing node had sent `frames` before.
    pub fn has_reported(&mut self, number: u64, booked: bool, frames: u64) {
        self.was_read(number);
        match self.open {
            Some(batch) if booked && batch.opened_at <= number => {
                self.booked = self.booked.saturating_add(batch.entries);
                self.open = Some(Batch {
                    told_from: Some(frames),
                    ..batch
                });
            }
            _ => {}
        }
    }

    // The head was given the managing node's frame with this number, and closed its batch or not.
    pub fn has_heard(&mut self, number: u64, closed: bool) {
        self.heard = self.heard.max(number.saturating_add(1));
        if closed {
            self.open = None;
        }
    }

    // The box handed out an entry.
    pub fn has_handed_out(&mut self) {
        self.taken = self.taken.saturating_add(1);
    }

    // Nothing is under way any more, of the head's answers and of the frames that the managing node sent.
    pub fn line_cleared(&mut self, frames: u64) {
        self.lost = self
            .lost
            .saturating_add(self.sent.saturating_sub(self.read));
        self.read = self.sent;
        self.heard = frames;
    }
}
