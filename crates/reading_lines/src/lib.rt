// The lines of a listing, and those of a whole reading.
#![tactic(auto)]

mod digits;
mod lines;
pub mod whole;
