// The tables that a fitter reads.
use crate::account::Head;
use crate::cause::OF_THE_EXCHANGE;
use crate::journal::Out;
use crate::world::{Scene, World};

// A line for a head: its entries, then its answers on their way to the box.
fn row(rt: &impl Print, head: Head) {
    let numbers = [
        head.id as u64,
        head.accepted,
        head.refused,
        head.booked,
        head.taken,
        head.in_batch(),
        head.waiting,
        head.sent,
        head.lost,
        head.repeated,
    ];
    for n in numbers {
        let _ = print!(rt; "{n:>9}");
    }
    let _ = println!(rt);
}

// How often each cause was given; one that was never given makes the run worth less than it should be.
fn causes(rt: &impl Print, w: &mut World) {
    for cause in OF_THE_EXCHANGE {
        let number = usize::from(cause);
        let n = w.refusals[number];
        let _ = println!(rt; "{n:>9}  cause {number}, {cause}");
        w.demands(0 < n);
    }
}

pub fn simulated(rt: &impl Print, scene: &mut Scene) {
    let _ = println!(rt;
        "     head   raised  refused   booked    taken     open  waiting     sent     lost repeated"
    );
    for node in &scene.nodes {
        row(rt, node.head);
    }
    let calls = scene.world.calls;
    let by_host = scene.world.by_host;
    let requests = scene.world.sent.saturating_sub(by_host);
    let _ = println!(rt;
        "calls {calls}, requests sent {requests}, frames that the host sent by itself {by_host}, refusals by cause"
    );
    causes(rt, &mut scene.world);
}

pub fn verdict(out: &Out<'_, impl Print + Eprint>, scene: &mut Scene) {
    let taken = scene
        .nodes
        .iter()
        .fold(0u64, |n, node| n.saturating_add(node.head.taken));
    let records = out.records;
    if out.file.is_some() {
        let _ = println!(out.rt; "records in the journal {records}, entries taken {taken}");
        out.close();
    }
    scene.world.demands(records == taken);
    let faults = scene.world.faults;
    let _ = if faults == 0 {
        println!(out.rt; "every accepted fault is accounted for")
    } else {
        println!(out.rt;
            "{faults} times something else than 01 and 02 have\nFAULTS ARE MISSING OR DOUBLE"
        )
    };
}
