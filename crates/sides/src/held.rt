// A side's features, however they are held: as one value, or in the tables of a prepared description.
ghost use Rattle.std.specs.Prelude.{◌≡◌, ◌≤◌, length, get_or};
ghost use Rattle.sides.specs.declared.SideFeatures.{SideFeatures};
ghost use Rattle.sides.specs.Features.{faces_in, discs_in, no_face, no_disc};

use super::{PlacedDisc, PlacedFace, PlacedPoint, SideFeatures, no_disc, no_face};

// The faces and discs of a side by their numbers; past the last one a blank.
pub trait Side {
    // The features as one value.
    ghost features: { Self → SideFeatures };

    fn body(&self) -> usize
        ensures { result ≡ (features self.now).body };

    fn faces(&self) -> usize
        ensures { (result ≡ length (faces_in (features self.now))) × (result ≤ 12) };

    fn face(&self, i: usize) -> PlacedFace
        ensures { result ≡ get_or (faces_in (features self.now)) i no_face };

    fn discs(&self) -> usize
        ensures { (result ≡ length (discs_in (features self.now))) × (result ≤ 28) };

    fn disc(&self, i: usize) -> PlacedDisc
        ensures { result ≡ get_or (discs_in (features self.now)) i no_disc };

    fn center(&self) -> PlacedPoint
        ensures { result ≡ (features self.now).center };
}

impl Side for SideFeatures {
    ghost features = { λ s. s };

    fn body(&self) -> usize {
        self.body
    }

    fn faces(&self) -> usize {
        self.faces.min(12)
    }

    fn face(&self, i: usize) -> PlacedFace {
        if i < self.faces() {
            self.face[i]
        } else {
            no_face()
        }
    }

    fn discs(&self) -> usize {
        self.discs.min(28)
    }

    fn disc(&self, i: usize) -> PlacedDisc {
        if i < self.discs() {
            self.disc[i]
        } else {
            no_disc()
        }
    }

    fn center(&self) -> PlacedPoint {
        self.center
    }
}
