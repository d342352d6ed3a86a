// Parts at a pose with their outlines in rows.
ghost use Rattle.std.specs.Prelude.{◌≡◌, ◌≤◌, length};
ghost use Rattle.mechanism.specs.Check.{FewParts};
ghost use Rattle.mechanism.specs.Description.{start_of_part};
ghost use Rattle.drawing.specs.Drawing.{part_starts};

use bodies::pose::Pose;
use drawing::PartStarts;
use mechanism::Parts;
use mechanism::segments::SegRow;

// Parts that pass no limit with the rows of their outlines, and where each starts, at a pose.
#[derive(Clone, Copy)]
pub(crate) struct Posed<'a> {
    pub(crate) parts: &'a Parts,
    pub(crate) segs: &'a [SegRow],
    pub(crate) starts: PartStarts,
    pub(crate) q: Pose,

    ghost begun: { starts ≡ part_starts parts.now },

    ghost few: { FewParts parts.now },

    ghost there: { start_of_part parts.now parts.now.count ≤ length segs.now },
}
