// Reading a frame, exported.
ghost use Rattle.powerlink.specs.Reading.{FrameRead};

use services::table::Services;

#[unsafe(no_mangle)]
pub extern "C" fn powerlink_deserialize_frame_v2(
    services: &Services,
    buffer: &[u8],
    values: &mut [u64; 16],
    octet: &mut u8,
) -> u8
    ensures { FrameRead services.now buffer.now result values.old values.new octet.old octet.new }
{
    powerlink::reading::powerlink_deserialize_frame_v2(services, buffer, values, octet)
}
