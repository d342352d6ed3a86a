// Parts and the ranges of their outlines that contacts read (contact/mod.rs).
use geometry::Seg;

// What a part is to the body that carries it.
#[derive(Clone, Copy)]
pub enum Role {
    Solid,
    Cut,
    Lining,
}

// How an outline becomes a solid.
#[derive(Clone, Copy)]
pub enum Sweep {
    Extruded { width: f64, across: f64 },
    Revolved { axis: f64 },
    Milled { width: f64 },
    Oval { width: f64 },
}

// A part: the body that carries it, how many segments its outline has, its sweep and its role.
#[derive(Clone, Copy)]
pub struct Part {
    pub body: usize,
    pub segs: usize,
    pub sweep: Sweep,
    pub role: Role,
}

// One segment of an outline.
#[derive(Clone, Copy)]
pub struct OutlineSeg {
    pub seg: Seg,
}

// The segments `start` to `end`, the last left out, of a part's silhouette.
#[derive(Clone, Copy)]
pub struct SurfaceRef {
    pub part: usize,
    pub start: usize,
    pub end: usize,
}
