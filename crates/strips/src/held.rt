// One side of the tables of a prepared description.
ghost use Rattle.std.specs.Prelude.{◌≤◌};

use super::SideFacts;
use super::tables::Tables;
use geometry::Point;

// A side of tables: what its row says, and its centre.
#[derive(Clone, Copy)]
pub struct TableSide<'a> {
    pub tables: Tables<'a>,
    pub facts: SideFacts,
    pub center: Point,

    ghost face_small: { facts.face ≤ 65535 },

    ghost faces_few: { facts.faces ≤ 12 },

    ghost disc_small: { facts.disc ≤ 65535 },

    ghost discs_few: { facts.discs ≤ 28 },
}
