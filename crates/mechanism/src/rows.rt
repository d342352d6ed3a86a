// The rows of a reading (contact/rows.rs).
ghost use Rattle.std.specs.Prelude.{◌≡◌, get_or, replicate, []};
ghost use Rattle.ieee.specs.Consts.{zero_f};
ghost use Rattle.geometry.specs.Signed.{on_a, on_b};
ghost use Rattle.mechanism.specs.Rows.{lists_of, proximity_of, row_in};

use super::features::{Feature, Piece};
use geometry::signed::Proximity;
use geometry::{Dir, Point};

// Where two pieces of a pair stand to each other: the signed gap, the normal from side B to side A and the point midway, in the world.
#[derive(Clone, Copy)]
pub struct Row {
    pub pair: usize,
    pub feature: Feature,
    pub gap: f64,
    pub normal: Dir,
    pub point: Point,
}

// A row in lent arrays, first half: its pair, and the letter, part and segment of both pieces.
pub type Place = [usize; 7];

// Second half: its gap, normal and point.
pub type Value = [f64; 5];

// Lent arrays for rows: of each row both halves, and its gradient and its slip, a float a coordinate each.
#[derive(Drop)]
pub struct LentRows<'a> {
    pub places: &'a mut [Place],
    pub values: &'a mut [Value],
    pub grad: &'a mut [f64],
    pub slip: &'a mut [f64],
}

// Arrays of fixed length to lend: for N rows, and for K entries of their gradients and of their slips.
#[derive(Drop)]
pub struct RowArrays<const N: usize, const K: usize> {
    pub places: [Place; N],
    pub values: [Value; N],
    pub grad: [f64; K],
    pub slip: [f64; K],
}

impl<const N: usize, const K: usize> RowArrays<N, K> {
    // Arrays that hold zeros.
    pub fn blank() -> RowArrays<N, K>
        ensures { result ≡ record { places = replicate N (replicate 7 0); values = replicate N (replicate 5 zero_f); grad = replicate K zero_f; slip = replicate K zero_f } }
    {
        RowArrays {
            places: [[0; 7]; N],
            values: [[0.0; 5]; N],
            grad: [0.0; K],
            slip: [0.0; K],
        }
    }

    pub fn lent(&mut self) -> LentRows<'_>
        ensures { lists_of result ≡ record { places = self.old.places; values = self.old.values; grad = self.old.grad; slip = self.old.slip } }
    {
        LentRows {
            places: &mut self.places,
            values: &mut self.values,
            grad: &mut self.grad,
            slip: &mut self.slip,
        }
    }
}

// The first `count` rows of lent arrays, to be read, as far as they are there: both halves of each.
#[derive(Clone, Copy)]
pub struct ReadRows<'a> {
    pub places: &'a [Place],
    pub values: &'a [Value],
    pub count: usize,
}

impl ReadRows<'_> {
    // Row i: past the end of an array, zeros and NaN.
    pub fn row(&self, i: usize) -> Row
        ensures { result ≡ row_in (get_or self.now.places.now i []) (get_or self.now.values.now i []) }
    {
        let place = if i < self.places.len() {
            self.places[i]
        } else {
            [0; 7]
        };
        let value = if i < self.values.len() {
            self.values[i]
        } else {
            [0.0 / 0.0; 5]
        };
        Row::from((place, value))
    }
}

impl Row {
    // Where its two pieces meet.
    fn proximity(self) -> Proximity
        ensures { result ≡ proximity_of self }
    {
        Proximity {
            gap: self.gap,
            normal: self.normal,
            point: self.point,
        }
    }

    // Where side A's surface is, in the world.
    pub fn on_a(self) -> Point
        ensures { result ≡ on_a (proximity_of self) }
    {
        self.proximity().on_a()
    }

    // Where side B's surface is.
    pub fn on_b(self) -> Point
        ensures { result ≡ on_b (proximity_of self) }
    {
        self.proximity().on_b()
    }
}

// The row that stands in lent arrays as these two.
impl From<(Place, Value)> for Row {
    ghost from_gives = { λ r row. row ≡ row_in r.0 r.1 };

    fn from(r: (Place, Value)) -> Row {
        let (place, value) = r;
        Row {
            pair: place[0],
            feature: Feature {
                a: Piece::from([place[1], place[2], place[3]]),
                b: Piece::from([place[4], place[5], place[6]]),
            },
            gap: value[0],
            normal: Dir {
                x: value[1],
                y: value[2],
            },
            point: Point {
                x: value[3],
                y: value[4],
            },
        }
    }
}
