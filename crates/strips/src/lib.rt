// A description prepared for its readings: drawn and sampled points, parts, faces, discs and sides in lent arrays, a row of numbers each, so that a reading copies none of them.
// Where a number names no row, what is read there is NaN or 0.
#![tactic(auto)]

ghost use Rattle.std.specs.Prelude.{◌≡◌, ◌≤◌};
ghost use Rattle.strips.specs.Strips.{at_most, row_a, row_b, row_of_material, row_of_sampled, face_from, disc_from, part_from, facts_from, face_row, disc_row};

pub mod held;
pub mod tables;

use geometry::signed::{Disc, Face};
use geometry::{Dir, Point};

// A face: its two ends and its normal.
pub type FaceRow = [f64; 6];

// A disc: its centre, its radius and the two directions of its sector.
pub type DiscRow = [f64; 7];

// A piece: its letter, part and segment.
pub type PieceRow = [usize; 3];

// A point.
pub type PointRow = [f64; 2];

// A part: its body, the points of its silhouette as it is drawn, first and how many, and the points sampled along it, first and how many.
pub type PartRow = [usize; 5];

// A side: its body, its first face and how many it has, its first disc and how many, the part of its centre, and the pair's geometry (0 features, 1 centre bearing).
pub type SideRow = [usize; 7];

// What each part is to a side: to its material 1 a solid, 2 a cut; or whether it is sampled.
pub type ChoiceRow = [u8; 32];

// What a part's row says: a first row above 65,535 is read as 65,535, and no more points count than any silhouette has.
#[derive(Clone, Copy)]
pub struct PartFacts {
    pub body: usize,
    pub drawn: usize,
    pub points: usize,
    pub sampled: usize,
    pub samples: usize,
}

// What a side's row says: a first row above 65,535 is read as 65,535, and no more than twelve faces and twenty-eight discs count.
#[derive(Clone, Copy)]
pub struct SideFacts {
    pub body: usize,
    pub face: usize,
    pub faces: usize,
    pub disc: usize,
    pub discs: usize,
    pub part: usize,
    pub geometry: usize,
}

// ---- rows read

pub fn face_from(r: FaceRow) -> Face
    ensures { result ≡ face_from r }
{
    Face {
        a: Point { x: r[0], y: r[1] },
        b: Point { x: r[2], y: r[3] },
        normal: Dir { x: r[4], y: r[5] },
    }
}

pub fn disc_from(r: DiscRow) -> Disc
    ensures { result ≡ disc_from r }
{
    Disc {
        center: Point { x: r[0], y: r[1] },
        radius: r[2],
        from: Dir { x: r[3], y: r[4] },
        to: Dir { x: r[5], y: r[6] },
    }
}

// n, or m where it is more.
pub fn at_most(n: usize, m: usize) -> usize
    ensures { (result ≡ at_most n m) × (result ≤ m) }
{
    n.min(m)
}

impl From<PartRow> for PartFacts {
    ghost from_gives = { λ r p. p ≡ part_from r };

    fn from(r: PartRow) -> PartFacts {
        PartFacts {
            body: r[0],
            drawn: at_most(r[1], 65535),
            points: at_most(r[2], 752),
            sampled: at_most(r[3], 65535),
            samples: at_most(r[4], 1598),
        }
    }
}

impl From<SideRow> for SideFacts {
    ghost from_gives = { λ r s. s ≡ facts_from r };

    fn from(r: SideRow) -> SideFacts {
        SideFacts {
            body: r[0],
            face: at_most(r[1], 65535),
            faces: at_most(r[2], 12),
            disc: at_most(r[3], 65535),
            discs: at_most(r[4], 28),
            part: r[5],
            geometry: r[6],
        }
    }
}

// ---- rows of a pair

// The row of a pair's side A, and of its side B; of a pair above the sixteenth the rows behind those of all pairs.
pub fn row_a(pair: usize) -> usize
    ensures { result ≡ row_a pair }
{
    2 * at_most(pair, 16)
}

pub fn row_b(pair: usize) -> usize
    ensures { result ≡ row_b pair }
{
    2 * at_most(pair, 16) + 1
}

// The row of a side's material among the choices, and behind it that of the parts sampled for it, by the side's own row.
pub fn row_of_material(side: usize) -> usize
    ensures { result ≡ row_of_material side }
{
    2 * at_most(side, 33)
}

pub fn row_of_sampled(side: usize) -> usize
    ensures { result ≡ row_of_sampled side }
{
    2 * at_most(side, 33) + 1
}

// ---- rows made

pub fn face_row(f: Face) -> FaceRow
    ensures { result ≡ face_row f }
{
    [f.a.x, f.a.y, f.b.x, f.b.y, f.normal.x, f.normal.y]
}

pub fn disc_row(d: Disc) -> DiscRow
    ensures { result ≡ disc_row d }
{
    [
        d.center.x, d.center.y, d.radius, d.from.x, d.from.y, d.to.x, d.to.y,
    ]
}
