// What is refused of the bodies by themselves (document 01, "Refused, first that applies", 3 to 5), and the number and place of a refusal.
ghost use Rattle.std.specs.Prelude.{◌≡◌, ◌≤◌};
ghost use Rattle.bodies.specs.Check.{number_of, place_of, coord_below, misplaced, bodies_checked, dir_lacks, joint_lacks, bodies_lack, bodies_stand};

use super::{Bodies, Body, Joint, Problem};
use geometry::Dir;
use std::fmt;

impl Problem {
    // Document 01's number of the refusal.
    pub fn number(self) -> usize
        ensures { result ≡ number_of self }
    {
        match self {
            Problem::TextTooLong => 1,
            Problem::LineNotRead { .. } => 2,
            Problem::LimitPassed => 3,
            Problem::BodyNotPlaced { .. } => 4,
            Problem::NoDirection => 5,
            Problem::PartOnNoSuchBody { .. } => 6,
            Problem::OutlineNotClosed { .. } => 7,
            Problem::RangeNotDrawn { .. } => 8,
            Problem::SideOnTwoBodies { .. } => 9,
            Problem::PairOnOneBody { .. } => 10,
            Problem::PoseNotMatching => 11,
            Problem::NoSuchThing => 12,
            Problem::TooFewRows => 13,
        }
    }

    // Its place, 0 where it has none.
    pub fn place(self) -> usize
        ensures { result ≡ place_of self }
    {
        match self {
            Problem::LineNotRead { line } => line,
            Problem::BodyNotPlaced { body } => body,
            Problem::PartOnNoSuchBody { part } | Problem::OutlineNotClosed { part } => part,
            Problem::RangeNotDrawn { pair }
            | Problem::SideOnTwoBodies { pair }
            | Problem::PairOnOneBody { pair } => pair,
            Problem::TextTooLong
            | Problem::LimitPassed
            | Problem::NoDirection
            | Problem::PoseNotMatching
            | Problem::NoSuchThing
            | Problem::TooFewRows => 0,
        }
    }
}

// As the programs print it.
impl fmt::Display for Problem {
    ghost use Rattle.std.specs.Prelude.{Some, ◌++◌, codes, decimal};

    ghost output = { λ p. Some (codes "X," ++ (decimal (number_of p) ++ (codes "," ++ decimal (place_of p)))) };

    fn fmt<W: fmt::Write>(&self, f: &mut fmt::Formatter<W>) -> fmt::Result {
        write!(f, "X,{},{}", self.number(), self.place())
    }
}

// ---- 4: a body's parent is not below it, or its coordinate is not below the count

fn coord_below(n: usize, j: Joint) -> bool
    ensures { result ≡ coord_below n j }
{
    match j {
        Joint::Ground => true,
        Joint::Revolute { coord, .. } | Joint::Prismatic { coord, .. } => coord < n,
    }
}

// Body i + 1.
fn is_misplaced(coords: usize, b: Body, i: usize) -> bool
    ensures { result ≡ misplaced coords b i }
{
    b.parent > i || !coord_below(coords, b.joint)
}

#[tactic(auto, unfolding(crate::specs::Check::bodies_checked), using(crate::proofs::Turns::first_turns))]
fn bodies_checked(b: Bodies) -> Result<(), Problem>
    requires { b.count ≤ 15 }
    ensures { result ≡ bodies_checked b }
{
    for i in 0..b.count {
        if is_misplaced(b.coords, b.body[i], i) {
            return Err(Problem::BodyNotPlaced { body: i + 1 });
        }
    }
    Ok(())
}

// ---- 5: a slide's axis has no `Dir::new`

// Whether a direction in a value has no `Dir::new`.
pub fn dir_lacks(d: Dir) -> bool
    ensures { result ≡ dir_lacks d }
{
    Dir::new(d.x, d.y).is_none()
}

fn joint_lacks(j: Joint) -> bool
    ensures { result ≡ joint_lacks j }
{
    match j {
        Joint::Ground | Joint::Revolute { .. } => false,
        Joint::Prismatic { axis, .. } => dir_lacks(axis),
    }
}

#[tactic(auto, unfolding(crate::specs::Check::bodies_lack))]
fn bodies_lack(b: Bodies) -> bool
    requires { b.count ≤ 15 }
    ensures { result ≡ bodies_lack b }
{
    b.body[..b.count].iter().any(|x| joint_lacks(x.joint))
}

// 3, 4 and 5 of the bodies by themselves.
#[tactic(auto, unfolding(crate::specs::Check::bodies_stand))]
pub fn bodies_stand(b: Bodies) -> Result<(), Problem>
    ensures { result ≡ bodies_stand b }
{
    if b.count > 15 || b.coords > 16 {
        return Err(Problem::LimitPassed);
    }
    bodies_checked(b)?;
    if bodies_lack(b) {
        return Err(Problem::NoDirection);
    }
    Ok(())
}
