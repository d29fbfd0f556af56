// The journal of booked entries: its calls, exported.
ghost use Rattle.powerlink.specs.Given.{time};
ghost use Rattle.powerlink.specs.Journal.{JournalRecords, JournalWhole};

#[unsafe(no_mangle)]
pub extern "C" fn powerlink_journal_record(
    id: u8,
    status_entry: bool,
    send_to_queue: bool,
    mode: u8,
    profile: u16,
    code: u16,
    seconds: u32,
    nanoseconds: u32,
    information: u64,
    target: &mut [u8],
    written: &mut usize,
) -> u8
    ensures { JournalRecords id status_entry send_to_queue mode profile code (time seconds nanoseconds) information result target.old target.new written.old written.new }
{
    powerlink::journal::powerlink_journal_record(
        id,
        status_entry,
        send_to_queue,
        mode,
        profile,
        code,
        seconds,
        nanoseconds,
        information,
        target,
        written,
    )
}

#[unsafe(no_mangle)]
pub extern "C" fn powerlink_journal_whole_len(version: u16, len: usize, whole: &mut usize) -> u8
    ensures { JournalWhole version len result whole.old whole.new }
{
    powerlink::journal::powerlink_journal_whole_len(version, len, whole)
}
