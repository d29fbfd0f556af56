// Lists the code tables, octet by octet, then the addresses and numbers that frames are made of; then what the functions give
// that no C function offers. The expected output is written from 01.
#![tactic(auto)]

mod batch;
mod frames;
mod print;
mod tables;

use control::asnd::ASndFrame;
use control::soa::SoAFrame;
use control::soc::SocFrame;
use poll::pres::PResFrame;
use print::Octets;
use std::io;
use types::basic::MacAddress;
use types::constants;
use types::poll_flags::RSFlag;

fn addresses(rt: &impl Print) -> io::Result<()> {
    let MacAddress(asnd) = ASndFrame::multicast();
    let addresses = [
        ("SoC address", SocFrame::MULTICAST),
        ("PRes address", PResFrame::MULTICAST),
        ("SoA address", SoAFrame::MULTICAST),
        ("ASnd address", asnd),
    ];
    for (name, address) in addresses {
        println!(rt; "{name:<24}{}", Octets(&address))?;
    }
    Ok(())
}

fn numbers(rt: &impl Print) -> io::Result<()> {
    let constants = constants::all();
    let numbers = [
        ("EtherType", constants.ethertype_epl),
        ("managing node", u16::from(constants.mn_def_node_id)),
        ("last controlled node", u16::from(constants.max_cn_node_id)),
        ("all nodes", u16::from(constants.broadcast_node_id)),
    ];
    for (name, number) in numbers {
        println!(rt; "{name:<24} {number}")?;
    }
    Ok(())
}

// How many frames wait, of 0 to 9: above 7 counts as 7.
fn requests(rt: &impl Print) -> io::Result<()> {
    for n in 0..10u8 {
        let waiting = RSFlag::new(n).0;
        print!(rt; " {waiting}")?;
    }
    println!(rt)
}

fn main(rt: HostRuntime) -> io::Result<()> {
    tables::all(&rt)?;
    addresses(&rt)?;
    numbers(&rt)?;
    requests(&rt)?;
    frames::all(&rt)?;
    batch::all(&rt)
}
