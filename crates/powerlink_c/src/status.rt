// The payload of a StatusResponse: its calls, exported.
ghost use Rattle.status_response.specs.BitField.{field_of, field_bytes};
ghost use Rattle.powerlink.specs.Given.{time, EntryWrites, status_writing};
ghost use Rattle.powerlink.specs.Reading.{StatusRead, FieldRead, EntryRead, StepRead};
ghost use Rattle.powerlink.specs.Writing.{WritesTo, WritesCoded};

#[unsafe(no_mangle)]
pub extern "C" fn powerlink_deserialize_status(
    payload: &[u8],
    values: &mut [u64; 5],
    field: &mut [u8; 8],
    octet: &mut u8,
) -> u8
    ensures { StatusRead payload.now result values.old values.new field.old field.new octet.old octet.new }
{
    powerlink::status::powerlink_deserialize_status(payload, values, field, octet)
}

#[unsafe(no_mangle)]
pub extern "C" fn powerlink_deserialize_error_field(buffer: &[u8], field: &mut [u8; 8]) -> u8
    ensures { FieldRead buffer.now result field.old field.new }
{
    powerlink::status::powerlink_deserialize_error_field(buffer, field)
}

#[unsafe(no_mangle)]
pub extern "C" fn powerlink_deserialize_entry(buffer: &[u8], values: &mut [u64; 8]) -> u8
    ensures { EntryRead buffer.now result values.old values.new }
{
    powerlink::status::powerlink_deserialize_entry(buffer, values)
}

#[unsafe(no_mangle)]
pub extern "C" fn powerlink_entry_step(
    payload: &[u8],
    offset: usize,
    values: &mut [u64; 8],
    next: &mut usize,
) -> u8
    ensures { StepRead payload.now offset result values.old values.new next.new }
{
    powerlink::status::powerlink_entry_step(payload, offset, values, next)
}

#[unsafe(no_mangle)]
pub extern "C" fn powerlink_serialize_entry(
    status_entry: bool,
    send_to_queue: bool,
    mode: u8,
    profile: u16,
    code: u16,
    seconds: u32,
    nanoseconds: u32,
    information: u64,
    target: &mut [u8],
    written: &mut usize,
) -> u8
    ensures { EntryWrites status_entry send_to_queue mode profile code (time seconds nanoseconds) information result target.old target.new written.old written.new }
{
    powerlink::status::powerlink_serialize_entry(
        status_entry,
        send_to_queue,
        mode,
        profile,
        code,
        seconds,
        nanoseconds,
        information,
        target,
        written,
    )
}

#[unsafe(no_mangle)]
pub extern "C" fn powerlink_serialize_error_field(
    field: &[u8; 8],
    target: &mut [u8],
    written: &mut usize,
) -> u8
    ensures { WritesTo (field_bytes (field_of field.now)) result target.old target.new written.old written.new }
{
    powerlink::status::powerlink_serialize_error_field(field, target, written)
}

#[unsafe(no_mangle)]
pub extern "C" fn powerlink_serialize_status(
    en: bool,
    ec: bool,
    pr: u8,
    rs: u8,
    state: u8,
    field: &[u8; 8],
    entries: &[u8],
    target: &mut [u8],
    written: &mut usize,
    octet: &mut u8,
) -> u8
    ensures { WritesCoded (status_writing en ec pr rs state field.now entries.now) result target.old target.new written.old written.new octet.old octet.new }
{
    powerlink::status::powerlink_serialize_status(
        en, ec, pr, rs, state, field, entries, target, written, octet,
    )
}
