// Leaves: octets in, numbers and parts out. What a map is they do not know.
#![tactic(auto)]

pub mod classes;
pub mod lengths;
pub mod names;
pub mod refusals;
pub mod sanitise;
pub mod trims;
