// The tables of a prepared description, lent.
ghost use Rattle.std.specs.Prelude.{◌≡◌, get_or, []};
ghost use Rattle.strips.specs.Strips.{SmallPart, SmallSide, point_from, piece_from, face_from, disc_from, part_from, facts_from, table_rows};
ghost use Rattle.strips.specs.Strips.{face_at, disc_at, drawn_at, sampled_at, center_at, part_at, side_at, side_in};
ghost use Rattle.strips.specs.Held.{features_of};

use super::held::TableSide;
use super::{
    ChoiceRow, DiscRow, FaceRow, PartFacts, PartRow, PieceRow, PointRow, SideFacts, SideRow,
    disc_from, face_from,
};
use geometry::signed::{Disc, Face};
use geometry::{Dir, Point};
use mechanism::features::Piece;
use sides::held::Side;
use sides::{PlacedDisc, PlacedFace, PlacedPoint, no_disc, no_face};

// The tables of a prepared description, lent: faces with their pieces, discs with theirs, sides with their centres and what each part is to them, the points of the parts as they
// are drawn and as they are sampled, and the parts. Where a number names no row, what is read there is NaN or 0.
#[derive(Clone, Copy)]
pub struct Tables<'a> {
    pub faces: &'a [FaceRow],
    pub fnames: &'a [PieceRow],
    pub discs: &'a [DiscRow],
    pub dnames: &'a [PieceRow],
    pub sides: &'a [SideRow],
    pub centers: &'a [PointRow],
    pub choices: &'a [ChoiceRow],
    pub drawn: &'a [PointRow],
    pub sampled: &'a [PointRow],
    pub parts: &'a [PartRow],
}

// Row i of lent rows.
fn face_at(faces: &[FaceRow], i: usize) -> Face
    ensures { result ≡ face_from (get_or faces.now i []) }
{
    if i < faces.len() {
        return face_from(faces[i]);
    }
    let nan = 0.0 / 0.0;
    Face {
        a: Point { x: nan, y: nan },
        b: Point { x: nan, y: nan },
        normal: Dir { x: nan, y: nan },
    }
}

fn disc_at(discs: &[DiscRow], i: usize) -> Disc
    ensures { result ≡ disc_from (get_or discs.now i []) }
{
    if i < discs.len() {
        return disc_from(discs[i]);
    }
    let nan = 0.0 / 0.0;
    Disc {
        center: Point { x: nan, y: nan },
        radius: nan,
        from: Dir { x: nan, y: nan },
        to: Dir { x: nan, y: nan },
    }
}

fn piece_at(names: &[PieceRow], i: usize) -> Piece
    ensures { result ≡ piece_from (get_or names.now i []) }
{
    if i < names.len() {
        return Piece::from(names[i]);
    }
    Piece::Segment { part: 0, seg: 0 }
}

fn point_at(points: &[PointRow], i: usize) -> Point
    ensures { result ≡ point_from (get_or points.now i []) }
{
    if i < points.len() {
        let r = points[i];
        return Point { x: r[0], y: r[1] };
    }
    let nan = 0.0 / 0.0;
    Point { x: nan, y: nan }
}

#[tactic(auto, using(crate::proofs::Bounds::part_small))]
fn part_at(parts: &[PartRow], i: usize) -> PartFacts
    ensures { (result ≡ part_from (get_or parts.now i [])) × SmallPart result }
{
    if i < parts.len() {
        return PartFacts::from(parts[i]);
    }
    PartFacts {
        body: 0,
        drawn: 0,
        points: 0,
        sampled: 0,
        samples: 0,
    }
}

#[tactic(auto, using(crate::proofs::Bounds::small_sides))]
fn side_at(sides: &[SideRow], i: usize) -> SideFacts
    ensures { (result ≡ facts_from (get_or sides.now i [])) × SmallSide result }
{
    if i < sides.len() {
        return SideFacts::from(sides[i]);
    }
    SideFacts {
        body: 0,
        face: 0,
        faces: 0,
        disc: 0,
        discs: 0,
        part: 0,
        geometry: 0,
    }
}

impl Tables<'_> {
    // Face i with its piece.
    pub fn face(&self, i: usize) -> PlacedFace
        ensures { result ≡ face_at (table_rows self.now) i }
    {
        PlacedFace {
            piece: piece_at(self.fnames, i),
            face: face_at(self.faces, i),
        }
    }

    // Disc i with its piece.
    pub fn disc(&self, i: usize) -> PlacedDisc
        ensures { result ≡ disc_at (table_rows self.now) i }
    {
        PlacedDisc {
            piece: piece_at(self.dnames, i),
            disc: disc_at(self.discs, i),
        }
    }

    // Point i of those that are drawn.
    pub fn drawn_point(&self, i: usize) -> Point
        ensures { result ≡ drawn_at (table_rows self.now) i }
    {
        point_at(self.drawn, i)
    }

    // Point i of those that are sampled.
    pub fn sampled_point(&self, i: usize) -> Point
        ensures { result ≡ sampled_at (table_rows self.now) i }
    {
        point_at(self.sampled, i)
    }

    // The centre of side k.
    pub fn center(&self, k: usize) -> Point
        ensures { result ≡ center_at (table_rows self.now) k }
    {
        point_at(self.centers, k)
    }

    pub fn part(&self, i: usize) -> PartFacts
        ensures { (result ≡ part_at (table_rows self.now) i) × SmallPart result }
    {
        part_at(self.parts, i)
    }

    // What the row of side k says.
    pub fn facts(&self, k: usize) -> SideFacts
        ensures { (result ≡ side_at (table_rows self.now) k) × SmallSide result }
    {
        side_at(self.sides, k)
    }
}

impl<'a> Tables<'a> {
    pub fn side(&self, k: usize) -> TableSide<'a>
        ensures features { features_of result ≡ side_in (table_rows self.entry.now) k }
        ensures parts { (table_rows result.tables ≡ table_rows self.entry.now) × (result.facts ≡ side_at (table_rows self.entry.now) k) × (result.center ≡ center_at (table_rows self.entry.now) k) }
    {
        TableSide {
            tables: *self,
            facts: self.facts(k),
            center: self.center(k),
        }
    }
}

impl Side for TableSide<'_> {
    ghost features = { features_of };

    fn body(&self) -> usize {
        self.facts.body
    }

    #[tactic(auto, using(crate::proofs::Sides::faces_counted))]
    fn faces(&self) -> usize {
        self.facts.faces
    }

    fn face(&self, i: usize) -> PlacedFace {
        if i < self.faces() {
            self.tables.face(self.facts.face + i)
        } else {
            no_face()
        }
    }

    #[tactic(auto, using(crate::proofs::Sides::discs_counted))]
    fn discs(&self) -> usize {
        self.facts.discs
    }

    fn disc(&self, i: usize) -> PlacedDisc {
        if i < self.discs() {
            self.tables.disc(self.facts.disc + i)
        } else {
            no_disc()
        }
    }

    fn center(&self) -> PlacedPoint {
        PlacedPoint {
            piece: Piece::Center {
                part: self.facts.part,
            },
            point: self.center,
        }
    }
}
