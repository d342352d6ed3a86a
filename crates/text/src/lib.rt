// What a line of a sheet text says: its fields, and the record that they make (document 01, "The sheet text").
#![tactic(auto)]

pub mod fields;
pub mod records;
