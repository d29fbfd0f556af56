// The two headers that every frame begins with: their calls, exported.
ghost use Rattle.types.specs.Header.{eth_bytes};
ghost use Rattle.powerlink.specs.Given.{eth_given, pl_header_writing};
ghost use Rattle.powerlink.specs.Reading.{EthRead, PlRead};
ghost use Rattle.powerlink.specs.Writing.{WritesTo, WritesCoded};

#[unsafe(no_mangle)]
pub extern "C" fn powerlink_deserialize_eth_header(
    buffer: &[u8],
    destination: &mut [u8; 6],
    source: &mut [u8; 6],
    ether_type: &mut u16,
) -> u8
    ensures { EthRead buffer.now result destination.old destination.new source.old source.new ether_type.old ether_type.new }
{
    powerlink::headers::powerlink_deserialize_eth_header(buffer, destination, source, ether_type)
}

#[unsafe(no_mangle)]
pub extern "C" fn powerlink_deserialize_pl_header(
    buffer: &[u8],
    values: &mut [u64; 3],
    octet: &mut u8,
) -> u8
    ensures { PlRead buffer.now result values.old values.new octet.old octet.new }
{
    powerlink::headers::powerlink_deserialize_pl_header(buffer, values, octet)
}

#[unsafe(no_mangle)]
pub extern "C" fn powerlink_serialize_eth_header(
    destination: &[u8; 6],
    source: &[u8; 6],
    ether_type: u16,
    target: &mut [u8],
    written: &mut usize,
) -> u8
    ensures { WritesTo (eth_bytes (eth_given destination.now source.now ether_type)) result target.old target.new written.old written.new }
{
    powerlink::headers::powerlink_serialize_eth_header(
        destination,
        source,
        ether_type,
        target,
        written,
    )
}

#[unsafe(no_mangle)]
pub extern "C" fn powerlink_serialize_pl_header(
    message_type: u8,
    destination: u8,
    source: u8,
    target: &mut [u8],
    written: &mut usize,
    octet: &mut u8,
) -> u8
    ensures { WritesCoded (pl_header_writing message_type destination source) result target.old target.new written.old written.new octet.old octet.new }
{
    powerlink::headers::powerlink_serialize_pl_header(
        message_type,
        destination,
        source,
        target,
        written,
        octet,
    )
}
