// The pieces of a side that a reading takes (contact/features.rs).
ghost use Rattle.std.specs.Prelude.{◌≡◌, [], ◌∷◌, get_or};
ghost use Rattle.mechanism.specs.Piece.{is_disc, letter_of, part_of, seg_of, piece_in};

// A piece, by its part and by its segment in the part's silhouette.
#[derive(Clone, Copy, PartialEq, Eq)]
pub enum Piece {
    // A straight segment, read as a face.
    Segment { part: usize, seg: usize },
    // An arc, read as a disc.
    Arc { part: usize, seg: usize },
    // The convex corner where a segment starts, read as a disc of radius zero.
    Vertex { part: usize, seg: usize },
    // The centre of a side's faces.
    Center { part: usize },
}

impl Piece {
    // Whether the piece is read as a disc: an arc or a vertex.
    pub fn is_disc(self) -> bool
        ensures { result ≡ is_disc self }
    {
        matches!(self, Piece::Arc { .. } | Piece::Vertex { .. })
    }
}

// What a row pairs: a piece of side A and one of side B.
#[derive(Clone, Copy)]
pub struct Feature {
    pub a: Piece,
    pub b: Piece,
}

// 0 a segment, 1 an arc, 2 a vertex, 3 a centre.
pub fn letter(p: Piece) -> usize
    ensures { result ≡ letter_of p }
{
    match p {
        Piece::Segment { .. } => 0,
        Piece::Arc { .. } => 1,
        Piece::Vertex { .. } => 2,
        Piece::Center { .. } => 3,
    }
}

pub fn part(p: Piece) -> usize
    ensures { result ≡ part_of p }
{
    match p {
        Piece::Segment { part, .. }
        | Piece::Arc { part, .. }
        | Piece::Vertex { part, .. }
        | Piece::Center { part } => part,
    }
}

pub fn seg(p: Piece) -> usize
    ensures { result ≡ seg_of p }
{
    match p {
        Piece::Segment { seg, .. } | Piece::Arc { seg, .. } | Piece::Vertex { seg, .. } => seg,
        Piece::Center { .. } => 0,
    }
}

// A piece's letter, part and segment.
impl From<Piece> for [usize; 3] {
    ghost from_gives = { λ p r. r ≡ letter_of p ∷ part_of p ∷ seg_of p ∷ [] };

    fn from(p: Piece) -> [usize; 3] {
        [letter(p), part(p), seg(p)]
    }
}

// And back; a letter above 3 is read as 3.
impl From<[usize; 3]> for Piece {
    ghost from_gives = { λ r p. p ≡ piece_in (get_or r 0 0) (get_or r 1 0) (get_or r 2 0) };

    fn from(r: [usize; 3]) -> Piece {
        let [letter, part, seg] = r;
        match letter {
            0 => Piece::Segment { part, seg },
            1 => Piece::Arc { part, seg },
            2 => Piece::Vertex { part, seg },
            _ => Piece::Center { part },
        }
    }
}
