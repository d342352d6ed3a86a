// Bodies in a tree, the parts that they carry and the contacts declared between them (mechanism/mod.rs), as one value within document 01's limits.
// In each list the count stands beside an array; entries past the count are never read. Bodies, coordinates, parts and pairs are named by their numbers.
#![tactic(auto)]

pub mod bearing;
pub mod check;
pub mod features;
pub mod pair;
pub mod part;
pub mod pose;
pub mod rows;
pub mod segments;

use bodies::Bodies;
use pair::ContactPair;
use part::{OutlineSeg, Part};

// Each part says how many segments its outline has.
#[derive(Clone, Copy)]
pub struct Parts {
    pub count: usize,
    pub part: [Part; 32],
}

// The segments of all outlines, part after part.
#[derive(Clone, Copy)]
pub struct Outlines {
    pub seg: [OutlineSeg; 384],
}

#[derive(Clone, Copy)]
pub struct Pairs {
    pub count: usize,
    pub pair: [ContactPair; 16],
}

#[derive(Clone, Copy)]
pub struct Mechanism {
    pub bodies: Bodies,
    pub parts: Parts,
    pub outlines: Outlines,
    pub pairs: Pairs,
}
