// The frames of a cycle's start and of its asynchronous part: SoC, SoA and ASnd (powerlink-rs: frame/control).
// Each kind has its `to_bytes` and `serialize`, as there: a trait of them would need as many blocks, and no caller takes any kind.
#![tactic(auto)]

pub mod asnd;
pub mod soa;
pub mod soc;
