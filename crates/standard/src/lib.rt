// What the standard, WARC 1.1, names: fields and record types.
#![tactic(auto)]

pub mod names;
pub mod types;
