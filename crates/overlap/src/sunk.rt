// How deep the samples of parts stand in the material of others.
ghost use Rattle.std.specs.Prelude.{◌≡◌, ℕ, List, ◌<◌, ◌≤◌, length};
ghost use Rattle.geometry.specs.declared.Point.{Point};
ghost use Rattle.material.specs.Material.{Material, drawn_material, deepest_square};
ghost use Rattle.material.specs.declared.DrawnMaterial.{DrawnMaterial};
ghost use Rattle.drawing.specs.Drawing.{Held};
ghost use Rattle.drawing.specs.declared.Chosen.{Chosen};
ghost use Rattle.overlap.specs.Overlap.{owner_at, sunk_among};

use drawing::{Chosen, Polygons};
use ieee::root::root;
use material::ranged::Ranged;
use material::{DrawnMaterial, Spot};

// Parts that are sampled and drawn at a pose, however they are held.
pub trait Sampled {
    // How many parts there are.
    ghost count: { Self → ℕ };

    // The samples of part i, placed with its body.
    ghost samples: { Self → ℕ → List Point };

    // The material of the chosen parts, and how many points their polygons have at most.
    ghost material: { Self → Chosen → Material };

    ghost room: { Self → ℕ };

    fn count(&self) -> usize
        ensures { result ≡ count self.now };

    // The largest of `from` and the squares of the depths of the samples of part i.
    fn deepest(&self, m: &Ranged, i: usize, from: f64) -> f64
        requires { i < count self.now }
        ensures { result ≡ deepest_square (drawn_material m.now.material) from (samples self.now i) };

    fn draw(&self, points: &mut [Spot], starts: &mut [usize], c: Chosen) -> Polygons
        requires { (room self.now ≤ length points.old) × (33 ≤ length starts.old) }
        ensures { (m : DrawnMaterial) → Held result points.new starts.new m → drawn_material m ≡ material self.now c };

    ghost few: { (s : Self) → count s ≤ 32 };
}

// The deepest that a sample of one of the parts chosen as 1 stands inside a drawn material: one root is taken, of the largest square.
fn sunk_in<S: Sampled>(m: &DrawnMaterial, s: &S, w: Chosen) -> f64
    ensures { result ≡ sunk_among (S.samples s.now) (S.count s.now) (owner_at w) (drawn_material m.now) }
{
    let ranged = m.ranged();
    let mut d = 0.0;
    for i in 0..s.count() {
        if w.what[i] == 1 {
            d = s.deepest(&ranged, i, d);
        }
    }
    root(d)
}

// The same inside the material of the parts that c chooses, drawn into lent points.
fn sunk<S: Sampled>(points: &mut [Spot], s: &S, w: Chosen, c: Chosen) -> f64
    requires { S.room s.now ≤ length points.old }
    ensures { result ≡ sunk_among (S.samples s.now) (S.count s.now) (owner_at w) (S.material s.now c) }
{
    let mut starts = [0usize; 33];
    let n = s.draw(points, &mut starts, c);
    sunk_in(&n.held(points, &starts), s, w)
}

// How deep the first parts stand in the second, and the second in the first.
#[derive(Clone, Copy)]
pub struct Both {
    pub into: f64,
    pub back: f64,
}

// Of each side the parts that are sampled and those that are its material.
pub(crate) fn sunk_both<S: Sampled>(
    points: &mut [Spot],
    s: &S,
    wa: Chosen,
    ca: Chosen,
    wb: Chosen,
    cb: Chosen,
) -> Both
    requires { S.room s.now ≤ length points.old }
    ensures { let sunk = sunk_among (S.samples s.now) (S.count s.now) in
        (result.into ≡ sunk (owner_at wa) (S.material s.now cb)) × (result.back ≡ sunk (owner_at wb) (S.material s.now ca)) }
{
    Both {
        into: sunk(points, s, wa, cb),
        back: sunk(points, s, wb, ca),
    }
}
