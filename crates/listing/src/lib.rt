// The listing of a sheet text.
#![tactic(auto)]

pub mod whole;
