// The functions that C and Rust link, each the call of `abi` of its name with that call's clauses: a crate is a library for other crates or an archive for
// other languages, and not both.
#![tactic(auto)]

mod editing;
mod looking;
mod reading;
mod telling;
mod walking;
mod writing;
