// Contact pairs: two surfaces of drawn parts and how they are read against each other (contact/pair.rs).
use super::part::SurfaceRef;

// One side of a contact: ranges of drawn parts, in order.
#[derive(Clone, Copy)]
pub struct Surface {
    pub count: usize,
    pub range: [SurfaceRef; 4],
}

#[derive(Clone, Copy)]
pub enum PairGeometry {
    // Corners, arcs and faces of both sides.
    Features,
    // The centre of side B's face on the faces of side A.
    CenterBearing,
}

#[derive(Clone, Copy)]
pub struct ContactPair {
    pub a: Surface,
    pub b: Surface,
    pub geometry: PairGeometry,
}
