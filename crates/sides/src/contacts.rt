// The features of every pair (`PairFeatures::of` of contact/features.rs, `with_contacts` of mechanism/mod.rs).
ghost use Rattle.std.specs.Prelude.{◌≡◌, [], ◌≤◌};
ghost use Rattle.mechanism.specs.Check.{FewParts};
ghost use Rattle.mechanism.specs.declared.features.Piece.TheVariants as Piece;
ghost use Rattle.sides.specs.Features.{side_from, no_point};
ghost use Rattle.sides.specs.Bounds.{DrawnSide};
ghost use Rattle.sides.specs.Contacts.{center_of_b, pair_features, pair_features_at, no_pair_features, all_contacts, contacts_of, DrawnPairs};

use super::{PlacedDisc, PlacedFace, PlacedPoint, SideFeatures, no_features, side};
use bodies::Problem;
use geometry::Point;
use mechanism::check::{check, pair_drawn};
use mechanism::features::Piece;
use mechanism::pair::{ContactPair, PairGeometry};
use mechanism::{Mechanism, Outlines, Pairs, Parts};

// A pair's two sides.
#[derive(Clone, Copy)]
pub struct PairFeatures {
    pub a: SideFeatures,
    pub b: SideFeatures,
}

// The features of the first `count` pairs of a description, in order.
#[derive(Clone, Copy)]
pub struct Contacts {
    pub count: usize,
    pub pair: [PairFeatures; 16],
}

fn center_of_b(g: PairGeometry) -> bool
    ensures { result ≡ center_of_b g }
{
    match g {
        PairGeometry::Features => false,
        PairGeometry::CenterBearing => true,
    }
}

#[tactic(auto, unfolding(crate::specs::Contacts::pair_features))]
fn pair_features(ps: Parts, o: Outlines, p: ContactPair) -> PairFeatures
    requires { FewParts ps × DrawnSide ps p.a × DrawnSide ps p.b }
    ensures { result ≡ pair_features ps o p }
{
    PairFeatures {
        a: side(ps, o, p.a, false),
        b: side(ps, o, p.b, center_of_b(p.geometry)),
    }
}

// A side without features.
pub fn no_side() -> SideFeatures
    ensures { result ≡ side_from 0 [] [] (Piece.Center 0) no_point }
{
    let f = no_features();
    let face = f.face;
    let disc = f.disc;
    SideFeatures {
        body: 0,
        faces: 0,
        face,
        discs: 0,
        disc,
        center: PlacedPoint {
            piece: Piece::Center { part: 0 },
            point: Point { x: 0.0, y: 0.0 },
        },
    }
}

fn no_pair_features() -> PairFeatures
    ensures { result ≡ no_pair_features }
{
    PairFeatures {
        a: no_side(),
        b: no_side(),
    }
}

// The features of a pair, for any values; none where a side is not drawn.
#[tactic(auto, unfolding(crate::specs::Contacts::pair_features_at), using(crate::proofs::Accepted::are_drawn))]
pub fn pair_features_at(ps: Parts, o: Outlines, p: ContactPair) -> PairFeatures
    ensures { result ≡ pair_features_at ps o p }
{
    if pair_drawn(ps, p) {
        return pair_features(ps, o, p);
    }
    no_pair_features()
}

fn all_contacts(ps: Parts, o: Outlines, pairs: Pairs) -> Contacts
    requires { FewParts ps × (pairs.count ≤ 16) × DrawnPairs ps pairs }
    ensures { result ≡ all_contacts ps o pairs }
{
    let mut all = [no_pair_features(); 16];
    for i in 0..pairs.count {
        all[i] = pair_features(ps, o, pairs.pair[i]);
    }
    Contacts {
        count: pairs.count,
        pair: all,
    }
}

// The features of every side of a description that is accepted, or the first refusal that applies.
#[tactic(auto, unfolding(crate::specs::Contacts::contacts_of))]
pub fn with_contacts(m: Mechanism) -> Result<Contacts, Problem>
    ensures { result ≡ contacts_of m }
{
    check(m)?;
    Ok(all_contacts(m.parts, m.outlines, m.pairs))
}
