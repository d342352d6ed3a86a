// How side A of a pair bears on side B (contact/bearing.rs).
use geometry::Point;

#[derive(Clone, Copy)]
pub enum HowItBears {
    // Face to face.
    Flat,
    // On the edge of side B's face.
    StopEdge,
    // On a corner of side A.
    KeyCorner,
}

// The governing row's gap and point, and the slope of side A's face over side B's, if side B has a straight one.
#[derive(Clone, Copy)]
pub struct Bearing {
    pub how: HowItBears,
    pub gap: f64,
    pub point: Point,
    pub slope: Option<f64>,
}
