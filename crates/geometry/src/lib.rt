// Points, directions and the two kinds of segment that outlines are made of (geometry/mod.rs).
#![tactic(auto)]

ghost use Rattle.std.specs.Prelude.{◌≡◌};
ghost use Rattle.geometry.specs.Geometry.{dir_of, vector_of, halfway_of, on_circle, start_of, end_of, drawn_of};

pub mod signed;

#[derive(Clone, Copy)]
pub struct Point {
    pub x: f64,
    pub y: f64,
}

impl Point {
    pub fn new(x: f64, y: f64) -> Self
        ensures { (result.x ≡ x) × (result.y ≡ y) }
    {
        Self { x, y }
    }
}

// A direction: two floats, as `Dir::new` makes them of a vector or as a caller hands them over.
#[derive(Clone, Copy)]
pub struct Dir {
    pub x: f64,
    pub y: f64,
}

impl Dir {
    pub const X: Self = Self { x: 1.0, y: 0.0 };

    pub const Y: Self = Self { x: 0.0, y: 1.0 };

    pub const NEG_X: Self = Self { x: -1.0, y: 0.0 };

    pub const NEG_Y: Self = Self { x: 0.0, y: -1.0 };

    // The direction of (x, y), where its computed length is finite and above zero.
    #[tactic(auto, unfolding(crate::specs::Geometry::dir_of))]
    pub fn new(x: f64, y: f64) -> Option<Dir>
        ensures { result ≡ dir_of x y }
    {
        let length = ieee::root::root(x * x + y * y);
        if ieee::num::is_finite(length) & (0.0 < length) {
            Some(Dir {
                x: x / length,
                y: y / length,
            })
        } else {
            None
        }
    }

    pub fn vector(self) -> Point
        ensures { result ≡ vector_of self }
    {
        Point {
            x: self.x,
            y: self.y,
        }
    }

    // The direction halfway on a counter-clockwise turn from self to `to`.
    #[tactic(auto, unfolding(crate::specs::Geometry::halfway_of))]
    pub fn halfway_to(self, to: Dir) -> Dir
        ensures { result ≡ halfway_of self to }
    {
        let cross = self.x * to.y - self.y * to.x;
        let dot = self.x * to.x + self.y * to.y;
        let sx = self.x + to.x;
        let sy = self.y + to.y;
        if 0.0 < cross {
            return Dir::new(sx, sy).unwrap_or(self);
        }
        if cross < 0.0 {
            return Dir::new(-sx, -sy).unwrap_or(self);
        }
        if dot < 0.0 {
            return Dir {
                x: -self.y,
                y: self.x,
            };
        }
        self
    }
}

// A line from a to b, or an arc about c from the direction `from` counter-clockwise to the direction `to`.
#[derive(Clone, Copy)]
pub enum Seg {
    Line {
        a: Point,
        b: Point,
    },
    Arc {
        c: Point,
        r: f64,
        from: Dir,
        to: Dir,
    },
}

// c + r d: the point of a circle in a direction.
pub fn on_circle(c: Point, r: f64, d: Dir) -> Point
    ensures { result ≡ on_circle c r d }
{
    Point {
        x: c.x + r * d.x,
        y: c.y + r * d.y,
    }
}

// The points that a segment is drawn through at three halvings, its end left out: a line's one, an arc's eight. The places past the count hold a line's start.
#[derive(Clone, Copy)]
pub struct Drawn {
    pub count: usize,
    pub points: [Point; 8],
}

impl Seg {
    pub fn start(self) -> Point
        ensures { result ≡ start_of self }
    {
        match self {
            Seg::Line { a, .. } => a,
            Seg::Arc { c, r, from, .. } => on_circle(c, r, from),
        }
    }

    pub fn end(self) -> Point
        ensures { result ≡ end_of self }
    {
        match self {
            Seg::Line { b, .. } => b,
            Seg::Arc { c, r, to, .. } => on_circle(c, r, to),
        }
    }

    #[tactic(auto, unfolding(crate::specs::Geometry::finer, crate::specs::Geometry::popped))]
    pub fn drawn(self) -> Drawn
        ensures { result ≡ drawn_of self }
    {
        match self {
            Seg::Line { a, .. } => Drawn {
                count: 1,
                points: [a; 8],
            },
            Seg::Arc { c, r, from, to } => {
                let d4 = from.halfway_to(to);
                let d2 = from.halfway_to(d4);
                let d6 = d4.halfway_to(to);
                let d1 = from.halfway_to(d2);
                let d3 = d2.halfway_to(d4);
                let d5 = d4.halfway_to(d6);
                let d7 = d6.halfway_to(to);
                Drawn {
                    count: 8,
                    points: [
                        on_circle(c, r, from),
                        on_circle(c, r, d1),
                        on_circle(c, r, d2),
                        on_circle(c, r, d3),
                        on_circle(c, r, d4),
                        on_circle(c, r, d5),
                        on_circle(c, r, d6),
                        on_circle(c, r, d7),
                    ],
                }
            }
        }
    }
}
