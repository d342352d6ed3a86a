// Bodies in a tree of joints (mechanism/mod.rs), as one value within document 01's limits, and what is refused.
// The count stands beside the array; entries past the count are never read. Bodies and coordinates are named by their numbers.
#![tactic(auto)]

pub mod check;
pub mod pose;

use geometry::{Dir, Point};

// How a body hangs from its parent.
#[derive(Clone, Copy)]
pub enum Joint {
    // Fixed: the body stands where its parent does.
    Ground,
    // A pin at `pivot` of the parent, turned by the coordinate.
    Revolute {
        pivot: Point,
        coord: usize,
    },
    // A slide from `origin` of the parent along `axis`, moved by the coordinate.
    Prismatic {
        origin: Point,
        axis: Dir,
        coord: usize,
    },
}

#[derive(Clone, Copy)]
pub struct Body {
    pub parent: usize,
    pub joint: Joint,
}

// The bodies above the ground, which is body 0: body[i] is body i + 1. `coords` is how many coordinates there are.
#[derive(Clone, Copy)]
pub struct Bodies {
    pub coords: usize,
    pub count: usize,
    pub body: [Body; 15],
}

// What is refused: document 01's list in its order, each with its place where it has one.
#[derive(Clone, Copy)]
pub enum Problem {
    TextTooLong,
    LineNotRead { line: usize },
    LimitPassed,
    BodyNotPlaced { body: usize },
    NoDirection,
    PartOnNoSuchBody { part: usize },
    OutlineNotClosed { part: usize },
    RangeNotDrawn { pair: usize },
    SideOnTwoBodies { pair: usize },
    PairOnOneBody { pair: usize },
    PoseNotMatching,
    NoSuchThing,
    TooFewRows,
}
