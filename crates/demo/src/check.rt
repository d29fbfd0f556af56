// Demand 3, by answers alone: a copy of the box is emptied, so the box itself is left as it is.
use crate::account::Head;
use crate::entries::entry;
use crate::expected::BOOK_LEN;
use crate::world::{Scene, World};
use collector::Collector;
use types::NodeId;

// More than a book holds.
const TAKES: u64 = BOOK_LEN + 1;

// How many entries of a head are booked: what was handed out, then what a copy of the box hands out until it refuses. They have to be
// entries 0, 1, 2, .. of the head.
fn booked(head: Head, mut at_box: Collector) -> Option<u64> {
    for n in head.taken..head.taken.saturating_add(TAKES) {
        let Ok(e) = collector::take(&mut at_box, NodeId(head.id)) else {
            return Some(n);
        };
        if e != entry(head.number, n) {
            return None;
        }
    }
    None
}

impl World {
    // Each accepted entry of a head has to be booked, in the open batch and not booked, or waiting: in one of them, and once.
    pub fn accounts_for(&mut self, head: Head) {
        let accounted = booked(head, self.at_box).map(|n| n.saturating_add(head.unbooked()));
        self.demands(accounted == Some(head.accepted));
    }
}

// Looks at every head.
pub fn all(scene: &mut Scene) {
    for node in &scene.nodes {
        scene.world.accounts_for(node.head);
    }
}
