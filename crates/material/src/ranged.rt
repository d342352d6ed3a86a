// Drawn material with the range of its points' ordinates.
ghost use Rattle.std.specs.Prelude.{◌≡◌, cond};
ghost use Rattle.ieee.specs.Consts.{zero_f};
ghost use Rattle.ieee.specs.Num.{max_of};
ghost use Rattle.material.specs.Material.{drawn_material, square_depth};
ghost use Rattle.material.specs.Range.{range_of, outside_of};

use super::{DrawnMaterial, Range, is_outside, y_range};
use geometry::Point;
use ieee::num::max;

// A drawn material with the range of its points' ordinates.
#[derive(Clone, Copy)]
pub struct Ranged<'a> {
    pub material: DrawnMaterial<'a>,
    pub range: Range,

    ghost of_points: { range ≡ range_of material.points.now },
}

impl<'a> DrawnMaterial<'a> {
    // It with the range of its points' ordinates.
    pub fn ranged(self) -> Ranged<'a>
        ensures { (result.material ≡ self.entry) × (result.range ≡ range_of self.entry.points.now) }
    {
        Ranged {
            material: self,
            range: y_range(self.points),
        }
    }
}

impl DrawnMaterial<'_> {
    // The largest of d and the square of p's depth, with the points outside a range settled at once.
    pub fn deeper_square(&self, range: Range, p: Point, d: f64) -> f64
        ensures { result ≡ max_of d (cond (outside_of range.lo range.hi p.y) zero_f (square_depth (drawn_material self.now) p)) }
    {
        if is_outside(range.lo, range.hi, p.y) {
            max(d, 0.0)
        } else {
            max(d, self.square_depth(p, d))
        }
    }
}

impl Ranged<'_> {
    // The largest of d and the square of p's depth, with the points outside the range settled at once.
    pub fn deeper_square(&self, p: Point, d: f64) -> f64
        ensures { result ≡ max_of d (square_depth (drawn_material self.now.material) p) }
    {
        self.material.deeper_square(self.range, p, d)
    }
}
