// The calls of the library for programs in C and Rust. A map stands in numbers that the caller lends, a head and a table, and a walker has a
// trail beside them; numbers that are no map's or no walker's are number 3.
#![tactic(auto)]

mod answers;
pub mod editing;
pub mod looking;
mod opening;
pub mod reading;
pub mod telling;
pub mod walking;
pub mod writing;
