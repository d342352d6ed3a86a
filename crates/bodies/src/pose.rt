// Poses, and how fast material points move with each coordinate (mechanism/pose.rs).
ghost use Rattle.std.specs.Prelude.{◌≡◌, true, ◌+◌, ◌≤◌, ◌<◌, length, take, option_to_list};
ghost use Rattle.bodies.specs.Check.{coord_below};
ghost use Rattle.bodies.specs.Pose.{rotate_of, world_of, is_world, hinged, slid, placed_of, placements_of, bodies_posed, posed_of, column_of, columns_of, columns_in, no_move, last_column, placement_at, placement_of, pose_fits, point_of, column_for, Rooted};

use super::check::bodies_stand;
use super::{Bodies, Joint, Problem};
use geometry::Point;

// What is lent for one coordinate: its value, and the sine and cosine of it.
#[derive(Clone, Copy)]
pub struct Entry {
    pub value: f64,
    pub sine: f64,
    pub cosine: f64,
}

// The same as three numbers.
pub type Lent = [f64; 3];

// A point fixed in a body, in the body's frame.
#[derive(Clone, Copy)]
pub struct MaterialPoint {
    pub body: usize,
    pub at: Point,
}

// Where a body's frame stands in the world: its origin, and the cosine and sine of its rotation.
#[derive(Clone, Copy)]
pub struct Placement {
    pub origin: Point,
    pub cos: f64,
    pub sin: f64,
}

impl Placement {
    // The world's own frame, which is the ground's.
    pub const WORLD: Self = Self {
        origin: Point { x: 0.0, y: 0.0 },
        cos: 1.0,
        sin: 0.0,
    };

    // A vector of this frame in the world: turned, not moved.
    pub fn rotate(self, v: Point) -> Point
        ensures { result ≡ rotate_of self v }
    {
        Point {
            x: self.cos * v.x - self.sin * v.y,
            y: self.sin * v.x + self.cos * v.y,
        }
    }

    // A point of this frame in the world.
    pub fn world(self, p: Point) -> Point
        ensures { result ≡ world_of self p }
    {
        let r = self.rotate(p);
        Point {
            x: self.origin.x + r.x,
            y: self.origin.y + r.y,
        }
    }

    // Whether this is the world's own frame, field by field.
    pub fn is_world(self) -> bool
        ensures { result ≡ is_world self }
    {
        ((self.origin.x == 0.0) & (self.origin.y == 0.0)) & ((self.cos == 1.0) & (self.sin == 0.0))
    }
}

// Every body placed: the ground first, `count` placements. The places past the count stand in the world.
#[derive(Clone, Copy)]
pub struct Pose {
    pub count: usize,
    pub placement: [Placement; 16],
}

// A body on a pin: its parent's placement, the pin in the parent's frame, and the sine and cosine of the angle.
fn hinge(parent: Placement, pivot: Point, sin: f64, cos: f64) -> Placement
    ensures { result ≡ hinged parent pivot sin cos }
{
    let origin = parent.world(pivot);
    Placement {
        origin,
        cos: parent.cos * cos - parent.sin * sin,
        sin: parent.sin * cos + parent.cos * sin,
    }
}

// A body on a slide along a from `origin` of the parent's frame.
fn slide(parent: Placement, origin: Point, a: Point, travel: f64) -> Placement
    ensures { result ≡ slid parent origin a travel }
{
    let at = parent.world(Point {
        x: origin.x + travel * a.x,
        y: origin.y + travel * a.y,
    });
    Placement {
        origin: at,
        cos: parent.cos,
        sin: parent.sin,
    }
}

fn place(q: &[Lent], parent: Placement, j: Joint) -> Placement
    requires { coord_below (length q.now) j ≡ true }
    ensures { result ≡ placed_of q.now parent j }
{
    match j {
        Joint::Ground => parent,
        Joint::Revolute { pivot, coord } => {
            let e = q[coord];
            hinge(parent, pivot, e[1], e[2])
        }
        Joint::Prismatic {
            origin,
            axis,
            coord,
        } => {
            let e = q[coord];
            slide(parent, origin, axis.vector(), e[0])
        }
    }
}

// Places every body, parent before child.
#[tactic(auto, unfolding(crate::specs::Pose::placements_of), using(crate::proofs::Turns::fold_turns))]
fn placements(b: Bodies, q: &[Lent]) -> Pose
    requires { Rooted b (length q.now) }
    ensures { (result.count ≡ b.count + 1) × (result.placement ≡ placements_of b q.now) }
{
    let mut placement = [Placement::WORLD; 16];
    for i in 0..b.count {
        let c = b.body[i];
        placement[i + 1] = place(q, placement[c.parent], c.joint);
    }
    Pose {
        count: b.count + 1,
        placement,
    }
}

// How fast a point moves in the world with one coordinate.
#[derive(Clone, Copy)]
pub struct Column {
    pub coord: usize,
    pub column: Point,
}

// The columns of a point from its body's joint to the ground. The places past the count hold zeros.
#[derive(Clone, Copy)]
pub struct Columns {
    pub count: usize,
    pub column: [Column; 15],
}

// The column that a joint gives the point p of the world, its body standing at `placed`.
fn joint_column(p: Point, placed: Placement, j: Joint) -> Option<Column>
    ensures { option_to_list result ≡ column_of p placed j }
{
    match j {
        Joint::Ground => None,
        Joint::Revolute { coord, .. } => Some(Column {
            coord,
            column: Point {
                x: -(p.y - placed.origin.y),
                y: p.x - placed.origin.x,
            },
        }),
        Joint::Prismatic { axis, coord, .. } => Some(Column {
            coord,
            column: placed.rotate(axis.vector()),
        }),
    }
}

// The walk up the parents, for the point of `body` that stands at p in the world.
pub fn columns_at(b: Bodies, q: Pose, body: usize, p: Point) -> Columns
    ensures { result ≡ columns_in (columns_of b q p body) }
{
    let none = Column {
        coord: 0,
        column: Point { x: 0.0, y: 0.0 },
    };
    let mut out = [none; 15];
    let mut n: usize = 0;
    let mut at = body;
    for _ in 0..15usize {
        if at == 0 || at > 15 {
            break;
        }
        let c = b.body[at - 1];
        if let Some(k) = joint_column(p, q.placement[at], c.joint) {
            out[n] = k;
            n += 1;
        }
        at = c.parent;
    }
    Columns {
        count: n,
        column: out,
    }
}

// The last column of a coordinate, which is the one nearest the ground.
#[tactic(auto, unfolding(crate::specs::Pose::last_column))]
fn last_column(k: Columns, coord: usize) -> Point
    requires { (k.count ≤ 15) × (k.count ≤ length k.column) }
    ensures { result ≡ last_column coord no_move (take k.count k.column) }
{
    let mut found = Point { x: 0.0, y: 0.0 };
    for i in 0..k.count {
        if k.column[i].coord == coord {
            found = k.column[i].column;
        }
    }
    found
}

// Where a body of the pose stands; a place of NaNs past the sixteenth.
pub fn placement_at(q: Pose, body: usize) -> Placement
    ensures { result ≡ placement_at q body }
{
    if body < 16 {
        return q.placement[body];
    }
    Placement {
        origin: Point {
            x: f64::NAN,
            y: f64::NAN,
        },
        cos: f64::NAN,
        sin: f64::NAN,
    }
}

// How fast a material point moves with a coordinate.
pub fn column_for(b: Bodies, q: Pose, p: MaterialPoint, coord: usize) -> Point
    ensures { result ≡ column_for b q p coord }
{
    let at = placement_at(q, p.body).world(p.at);
    last_column(columns_at(b, q, p.body, at), coord)
}

impl Pose {
    // Whether there is one placement a body, the ground's among them.
    pub fn fits(self, b: Bodies) -> bool
        ensures { result ≡ pose_fits b self }
    {
        self.count.checked_sub(1) == Some(b.count)
    }

    // Where a body's frame stands.
    #[tactic(auto, unfolding(crate::specs::Pose::placement_of))]
    pub fn placement(self, body: usize) -> Result<Placement, Problem>
        ensures { result ≡ placement_of self body }
    {
        if self.count > 16 || self.count <= body {
            return Err(Problem::NoSuchThing);
        }
        Ok(placement_at(self, body))
    }

    // Where a material point is, in the world.
    #[tactic(auto, unfolding(crate::specs::Pose::point_of))]
    pub fn world(self, p: MaterialPoint) -> Result<Point, Problem>
        ensures { result ≡ point_of self p }
    {
        if self.count > 16 || self.count <= p.body {
            return Err(Problem::NoSuchThing);
        }
        Ok(placement_at(self, p.body).world(p.at))
    }
}

impl Bodies {
    // Places the bodies of a description by themselves.
    #[tactic(auto, using(crate::proofs::Checks::rooted_for))]
    pub fn pose(self, q: &[Lent]) -> Result<Pose, Problem>
        ensures { result ≡ posed_of (bodies_posed self q.now) self q.now }
    {
        bodies_stand(self)?;
        if q.len() != self.coords {
            return Err(Problem::PoseNotMatching);
        }
        Ok(placements(self, q))
    }
}
