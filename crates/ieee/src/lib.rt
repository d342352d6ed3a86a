// Numbers as IEEE 754-2019 has them: the square root, the total order, Rust's small functions on f64, and bit patterns.
#![tactic(auto)]

pub mod bits;
pub mod num;
pub mod order;
pub mod root;
