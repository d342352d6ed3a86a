// Prepares a description for its readings: writes the rows of its tables.
#![tactic(auto)]

ghost use Rattle.std.specs.Prelude.{◌≡◌, true, ◌+◌, ◌*◌, ◌<◌, ◌≤◌, length};
ghost use Rattle.std.proofs.lemmas.List.Edits.{sets};
ghost use Rattle.strips.specs.Strips.{table_rows};
ghost use Rattle.mechanism.specs.Check.{check_of, pair_drawn};
ghost use Rattle.drawing.specs.Drawing.{row_of};
ghost use Rattle.tables.specs.Tables.{face_rows, face_names, disc_rows, disc_names, geometry_of, side_row, sampled_row, less_cuts, pair_choices};
ghost use Rattle.tables.specs.Tables.{blank_arrays, lent_rows, with_features, with_sides, with_pair, with_pairs, prepared_over};

use bodies::Problem;
use drawing::points::put_all_points;
pub use drawing::points::{DrawnRows, PartRows, SampledRows};
use drawing::{is_own, is_sampled, side_chosen};
use mechanism::check::check;
use mechanism::pair::{ContactPair, PairGeometry, Surface};
use mechanism::{Mechanism, Outlines, Parts};
use sides::SideFeatures;
use sides::contacts::{PairFeatures, pair_features_at};
use strips::tables::Tables;
use strips::{ChoiceRow, DiscRow, FaceRow, PieceRow, PointRow, SideRow, disc_row, face_row};

// The faces of all sides.
pub type FaceRows = [FaceRow; 384];

// The pieces of the faces.
pub type FaceNames = [PieceRow; 384];

// The discs of all sides.
pub type DiscRows = [DiscRow; 896];

// The pieces of the discs.
pub type DiscNames = [PieceRow; 896];

// The sides of all pairs.
pub type SideRows = [SideRow; 32];

// The sides' centers.
pub type CenterRows = [PointRow; 32];

// The parts that make the sides' material.
pub type ChoiceRows = [ChoiceRow; 64];

// Arrays for the tables of a description.
#[derive(Drop)]
pub struct Arrays {
    pub drawn: DrawnRows,
    pub sampled: SampledRows,
    pub parts: PartRows,
    pub faces: FaceRows,
    pub fnames: FaceNames,
    pub discs: DiscRows,
    pub dnames: DiscNames,
    pub sides: SideRows,
    pub centers: CenterRows,
    pub choices: ChoiceRows,
}

impl Arrays {
    // Arrays that hold zeros.
    #[tactic(auto, unfolding(crate::specs::Tables::blank_arrays))]
    pub fn blank() -> Arrays
        ensures { result ≡ blank_arrays }
    {
        Arrays {
            drawn: [[0.0; 2]; 6144],
            sampled: [[0.0; 2]; 13056],
            parts: [[0; 5]; 32],
            faces: [[0.0; 6]; 384],
            fnames: [[0; 3]; 384],
            discs: [[0.0; 7]; 896],
            dnames: [[0; 3]; 896],
            sides: [[0; 7]; 32],
            centers: [[0.0; 2]; 32],
            choices: [[0; 32]; 64],
        }
    }

    // The tables that stand here, those of so many parts, at most 32.
    pub fn lent(&self, parts: usize) -> Tables<'_>
        ensures { table_rows result ≡ lent_rows self.now parts }
    {
        Tables {
            faces: &self.faces,
            fnames: &self.fnames,
            discs: &self.discs,
            dnames: &self.dnames,
            sides: &self.sides,
            centers: &self.centers,
            choices: &self.choices,
            drawn: &self.drawn,
            sampled: &self.sampled,
            parts: &self.parts[..parts.min(32)],
        }
    }
}

// ---- features

// Writes the rows of a side's twelve faces, from `at` on.
fn put_faces(out: &mut [FaceRow], at: usize, s: SideFeatures)
    requires { at + 12 ≤ length out.old }
    ensures { out.new ≡ sets out.old at (face_rows s) }
{
    for i in 0..12 {
        out[at + i] = face_row(s.face[i].face);
    }
}

// Writes the pieces of a side's twelve faces, from `at` on.
fn put_face_names(out: &mut [PieceRow], at: usize, s: SideFeatures)
    requires { at + 12 ≤ length out.old }
    ensures { out.new ≡ sets out.old at (face_names s) }
{
    for i in 0..12 {
        out[at + i] = PieceRow::from(s.face[i].piece);
    }
}

// Writes the rows of a side's twenty-eight discs, from `at` on.
fn put_discs(out: &mut [DiscRow], at: usize, s: SideFeatures)
    requires { at + 28 ≤ length out.old }
    ensures { out.new ≡ sets out.old at (disc_rows s) }
{
    for i in 0..28 {
        out[at + i] = disc_row(s.disc[i].disc);
    }
}

// Writes the pieces of a side's twenty-eight discs, from `at` on.
fn put_disc_names(out: &mut [PieceRow], at: usize, s: SideFeatures)
    requires { at + 28 ≤ length out.old }
    ensures { out.new ≡ sets out.old at (disc_names s) }
{
    for i in 0..28 {
        out[at + i] = PieceRow::from(s.disc[i].piece);
    }
}

fn geometry_of(g: PairGeometry) -> usize
    ensures { result ≡ geometry_of g }
{
    match g {
        PairGeometry::Features => 0,
        PairGeometry::CenterBearing => 1,
    }
}

fn less_cuts(g: PairGeometry) -> bool
    ensures { result ≡ less_cuts g }
{
    matches!(g, PairGeometry::Features)
}

// The row of side k, whose pair has the geometry g.
fn side_row(k: usize, g: PairGeometry, s: SideFeatures) -> SideRow
    requires { k < 32 }
    ensures { result ≡ side_row k g s }
{
    [
        s.body,
        12 * k,
        s.faces,
        28 * k,
        s.discs,
        mechanism::features::part(s.center.piece),
        geometry_of(g),
    ]
}

// The parts sampled for a side.
fn sampled_row(ps: Parts, u: Surface) -> ChoiceRow
    ensures { result ≡ sampled_row ps u }
{
    let mut what = [0u8; 32];
    for i in 0..32 {
        what[i] = u8::from(is_own(u, i) & is_sampled(ps.part[i]));
    }
    what
}

fn center_row(s: SideFeatures) -> PointRow
    ensures { result ≡ row_of s.center.point }
{
    let p = s.center.point;
    [p.x, p.y]
}

// ---- pairs

impl Arrays {
    // Writes the features of a side, number k of all.
    fn put_side(&mut self, k: usize, s: SideFeatures)
        requires { k < 32 }
        ensures { self.new ≡ with_features self.old k s }
    {
        put_faces(&mut self.faces, 12 * k, s);
        put_face_names(&mut self.fnames, 12 * k, s);
        put_discs(&mut self.discs, 28 * k, s);
        put_disc_names(&mut self.dnames, 28 * k, s);
    }

    // Writes the choices of pair i.
    fn put_choices(&mut self, i: usize, ps: Parts, p: ContactPair)
        requires { i < 16 }
        ensures { self.new ≡ record self.old { choices = sets self.old.choices (4 * i) (pair_choices ps p) } }
    {
        let cuts = less_cuts(p.geometry);
        let of_a = side_chosen(ps, p.a, cuts).what;
        let of_b = side_chosen(ps, p.b, cuts).what;
        self.choices[4 * i] = of_a;
        self.choices[4 * i + 1] = sampled_row(ps, p.a);
        self.choices[4 * i + 2] = of_b;
        self.choices[4 * i + 3] = sampled_row(ps, p.b);
    }

    // Writes the sides and centres of pair i.
    fn put_sides(&mut self, i: usize, g: PairGeometry, f: PairFeatures)
        requires { i < 16 }
        ensures { self.new ≡ with_sides self.old i g f }
    {
        self.sides[2 * i] = side_row(2 * i, g, f.a);
        self.sides[2 * i + 1] = side_row(2 * i + 1, g, f.b);
        self.centers[2 * i] = center_row(f.a);
        self.centers[2 * i + 1] = center_row(f.b);
    }

    // Writes pair i.
    fn put_pair(&mut self, i: usize, ps: Parts, o: Outlines, p: ContactPair)
        requires { (i < 16) × (pair_drawn ps p ≡ true) }
        ensures { self.new ≡ with_pair self.old i ps o p }
    {
        let f = pair_features_at(ps, o, p);
        self.put_side(2 * i, f.a);
        self.put_side(2 * i + 1, f.b);
        self.put_sides(i, p.geometry, f);
        self.put_choices(i, ps, p);
    }

    // Writes all pairs of an accepted description.
    fn put_pairs(&mut self, m: Mechanism)
        requires { check_of m ≡ Ok tt }
        ensures { self.new ≡ with_pairs self.old m }
    {
        for i in 0..m.pairs.count {
            self.put_pair(i, m.parts, m.outlines, m.pairs.pair[i]);
        }
    }

    // Writes the tables of a description that is accepted from the front of the arrays; everything behind them stays, and everything where it is refused.
    pub fn prepare(&mut self, m: Mechanism) -> Result<(), Problem>
        ensures value { result ≡ check_of m }
        ensures after { self.new ≡ prepared_over (check_of m) self.old m }
    {
        check(m)?;
        put_all_points(
            &mut self.drawn,
            &mut self.sampled,
            &mut self.parts,
            m.parts,
            m.outlines,
        );
        self.put_pairs(m);
        Ok(())
    }
}
