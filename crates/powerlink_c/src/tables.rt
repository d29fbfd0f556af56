// Tables of services: their calls, exported.
ghost use Rattle.powerlink.specs.Tables.{ServicesLoad, ServicesContain};

use services::table::Services;

#[unsafe(no_mangle)]
pub extern "C" fn powerlink_services_load(file: &[u8], services: &mut Services) -> u8
    ensures { ServicesLoad file.now result services.old services.new }
{
    powerlink::tables::powerlink_services_load(file, services)
}

#[unsafe(no_mangle)]
pub extern "C" fn powerlink_services_contains(services: &Services, id: u8, held: &mut bool) -> u8
    ensures { ServicesContain id result services.now held.new }
{
    powerlink::tables::powerlink_services_contains(services, id, held)
}
