// The pose of a mechanism, its columns and its bodies by number (mechanism/pose.rs), after the check of the whole description.
ghost use Rattle.std.specs.Prelude.{◌≡◌, ◌≤◌};
ghost use Rattle.bodies.specs.Pose.{posed_of, jacobian_of, body_numbered, body_answer};
ghost use Rattle.mechanism.specs.Pose.{pose_checked, jacobian_checked, body_checked_at};

use super::Mechanism;
use super::check::check;
use bodies::pose::{Lent, MaterialPoint, Pose, column_for};
use bodies::{Bodies, Body, Joint, Problem};
use geometry::Point;

// Body n, the ground being body 0.
fn body_numbered(b: Bodies, n: usize) -> Body
    requires { n ≤ 15 }
    ensures { result ≡ body_numbered b n }
{
    if n == 0 {
        return Body {
            parent: 0,
            joint: Joint::Ground,
        };
    }
    b.body[n - 1]
}

impl Mechanism {
    // Places every body for the lent entries: the value, the sine and the cosine of each coordinate.
    #[tactic(auto, using(crate::proofs::Checks::posed_bodies))]
    pub fn pose(self, q: &[Lent]) -> Result<Pose, Problem>
        ensures { result ≡ posed_of (pose_checked self q.now) self.bodies q.now }
    {
        check(self)?;
        self.bodies.pose(q)
    }

    // How fast a material point moves in the world with a coordinate.
    pub fn jacobian_column(self, q: Pose, p: MaterialPoint, coord: usize) -> Result<Point, Problem>
        ensures { result ≡ jacobian_of (jacobian_checked self q p coord) self.bodies q p coord }
    {
        check(self)?;
        if !q.fits(self.bodies) {
            return Err(Problem::PoseNotMatching);
        }
        if self.bodies.count < p.body || self.bodies.coords <= coord {
            return Err(Problem::NoSuchThing);
        }
        Ok(column_for(self.bodies, q, p, coord))
    }

    // One body by its number.
    #[tactic(auto, using(crate::proofs::Checks::accepted_bodies))]
    pub fn body(self, n: usize) -> Result<Body, Problem>
        ensures { result ≡ body_answer (body_checked_at self n) self.bodies n }
    {
        check(self)?;
        if self.bodies.count < n {
            return Err(Problem::NoSuchThing);
        }
        Ok(body_numbered(self.bodies, n))
    }
}
