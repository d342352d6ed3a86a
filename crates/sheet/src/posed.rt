// The pose that the entries of a text give.
ghost use Rattle.std.specs.Prelude.{◌≡◌, map};
ghost use Rattle.sheet.specs.Posed.{entry_row, pose_of};

use super::Entries;
use bodies::Problem;
use bodies::pose::{Entry, Lent, Pose};
use mechanism::Mechanism;
use mechanism::check::call_checked;

// Sixteen entries of a pose, lent.
pub type LentEntries = [Lent; 16];

// An entry as it is lent.
fn row_of(e: Entry) -> Lent
    ensures { result ≡ entry_row e }
{
    [e.value, e.sine, e.cosine]
}

// The entries of a pose as they are lent, all sixteen.
pub fn lent(e: Entries) -> LentEntries
    ensures { result ≡ map entry_row e.entry }
{
    e.entry.map(row_of)
}

// The pose of a description for the entries of a text.
pub fn posed(m: Mechanism, e: Entries) -> Result<Pose, Problem>
    ensures { result ≡ pose_of m e }
{
    call_checked(m, e.count == m.bodies.coords, true, true)?;
    let q = lent(e);
    if e.count < 16 {
        return m.bodies.pose(&q[..e.count]);
    }
    m.bodies.pose(&q)
}
