// What of the PDO mapping stands in a frame (powerlink-rs: pdo/mapping.rs).

// The version of a PDO's mapping (EPSG DS 301, 6.4.2).
#[derive(Clone, Copy, Debug, PartialEq, Eq)]
pub struct PDOVersion(pub u8);
