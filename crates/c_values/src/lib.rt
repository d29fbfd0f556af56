// What goes between a library and its callers in C: answers and entries as numbers.
#![tactic(auto)]

pub mod answers;
pub mod values;
