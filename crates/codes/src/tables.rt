// The tables of codes, octet by octet: the name of each value, as its `Debug` has it, and the code that is written for it.
use services::ds301::DS301;
use services::table::contains;
use services::{
    IDENT_RESPONSE, NMT_COMMAND, NMT_PUBLISH_ACTIVE_NODES, NMT_PUBLISH_EMERG_NEW,
    NMT_PUBLISH_HEARTBEAT, NMT_PUBLISH_NMT_STATE, NMT_PUBLISH_NODE_LIST, NMT_PUBLISH_NODE_STATE,
    NMT_PUBLISH_TIME, NMT_REQUEST, SDO, STATUS_RESPONSE,
};
use std::fmt::Debug;
use std::io;
use std::io::Write;
use types::error_mode::ErrorEntryMode;
use types::message_type::MessageType;
use types::poll_flags::PRFlag;
use types::requested_service::RequestedServiceId;
use types::states::NmtState;

// The octets of a column of names.
const COLUMN: usize = 24;

// A line for each octet that `read` knows.
fn list<T: Into<u8> + Debug + Copy, Read: Fn(u8) -> Option<T>>(
    rt: &impl Print,
    title: &str,
    read: Read,
) -> io::Result<()>
    requires { Read.IsAlwaysCallable read }
{
    println!(rt; "{title:<24}code")?;
    for b in 0..=255u8 {
        if let Some(value) = read(b) {
            // A derived `Debug` knows no width, and a name needs no heap: it is written over a column of spaces.
            let mut column = [b' '; COLUMN];
            let mut name = &mut column[..];
            write!(name, "{value:?}")?;
            rt.write_all(&column)?;
            let code: u8 = value.into();
            println!(rt; "{code:02x}")?;
        }
    }
    Ok(())
}

fn service_name(id: u8) -> &'static str {
    match id {
        IDENT_RESPONSE => "IdentResponse",
        STATUS_RESPONSE => "StatusResponse",
        NMT_REQUEST => "NmtRequest",
        NMT_COMMAND => "NmtCommand",
        SDO => "Sdo",
        NMT_PUBLISH_TIME => "NMTPublishTime",
        NMT_PUBLISH_NMT_STATE => "NMTPublishNMTState",
        NMT_PUBLISH_NODE_STATE => "NMTPublishNodeState",
        NMT_PUBLISH_NODE_LIST => "NMTPublishNodeList",
        NMT_PUBLISH_EMERG_NEW => "NMTPublishEmergNew",
        NMT_PUBLISH_HEARTBEAT => "NMTPublishHeartbeat",
        NMT_PUBLISH_ACTIVE_NODES => "NMTPublishActiveNodes",
        // No Option: one that the table held beside the twelve would be listed too, by the title, and fail the test.
        _ => "services",
    }
}

// Under the table of the twelve. No `list`: a service is a number that no `Debug` names.
fn list_services(rt: &impl Print) -> io::Result<()> {
    println!(rt; "{:<24}code", "services")?;
    for id in 0..=255u8 {
        if contains(&DS301, id) {
            let name = service_name(id);
            println!(rt; "{name:<24}{id:02x}")?;
        }
    }
    Ok(())
}

pub fn all(rt: &impl Print) -> io::Result<()> {
    list(rt, "message types", |b| MessageType::try_from(b).ok())?;
    list(rt, "NMT states", |b| NmtState::try_from(b).ok())?;
    list_services(rt)?;
    list(
        rt,
        "requested services",
        |b| RequestedServiceId::try_from(b).ok(),
    )?;
    list(rt, "priorities", |b| Some(PRFlag::from(b)))?;
    list(
        rt,
        "error entry modes",
        |b| ErrorEntryMode::try_from(b).ok(),
    )
}
