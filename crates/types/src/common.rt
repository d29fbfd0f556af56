// Times.

// Seconds and nanoseconds of the network's clock (EPSG DS 301, 6.1.6.7).
#[derive(Clone, Copy, Debug, PartialEq, Eq)]
pub struct NetTime {
    pub seconds: u32,
    pub nanoseconds: u32,
}

// Microseconds since the start of the network (EPSG DS 301, Table 16).
#[derive(Clone, Copy, Debug, PartialEq, Eq)]
pub struct RelativeTime(pub u64);
