// The reader of the sheet text (document 01, "The sheet text").
#![tactic(auto)]

mod draft;
mod grammar;
mod limits;
pub mod posed;

ghost use Rattle.std.specs.Prelude.{◌≡◌, ◌≤◌, length};
ghost use Rattle.sheet.specs.Read.{accepted, ended, sheet_of_lines, written_in, entries_checked, sheet_checked, sheet_of};

use bodies::pose::Entry;
use bodies::{Bodies, Problem};
use draft::Draft;
use limits::Tally;
use mechanism::check::check;
use mechanism::part::OutlineSeg;
use mechanism::{Mechanism, Outlines, Pairs, Parts};
use text::records::Record;

// What a text gives for each coordinate, T line by T line. Entries past sixteen are not kept, and a count of seventeen stands for any above sixteen.
#[derive(Clone, Copy)]
pub struct Entries {
    pub count: usize,
    pub entry: [Entry; 16],
}

// What a text says: the description, the margin and the entries of the pose.
#[derive(Clone, Copy)]
pub struct Sheet {
    pub mechanism: Mechanism,
    pub margin: f64,
    pub entries: Entries,
}

// The description that was read.
#[tactic(auto, unfolding(crate::specs::Read::accepted))]
fn accept(t: Tally, d: Draft, seg: [OutlineSeg; 384]) -> Sheet
    ensures { result ≡ accepted t d seg }
{
    let body = d.body;
    let part = d.part;
    let pair = d.pair;
    Sheet {
        mechanism: Mechanism {
            bodies: Bodies {
                coords: t.coords,
                count: t.bodies,
                body,
            },
            parts: Parts {
                count: t.parts,
                part,
            },
            outlines: Outlines { seg },
            pairs: Pairs {
                count: t.pairs,
                pair,
            },
        },
        margin: d.margin,
        entries: d.entries,
    }
}

// The end of a text: whether it may end there, the line after its last, and whether it kept within the limits.
fn end(
    fit: bool,
    line: usize,
    kept: bool,
    t: Tally,
    d: Draft,
    seg: [OutlineSeg; 384],
) -> Result<Sheet, Problem>
    ensures { result ≡ ended fit line kept (accepted t d seg) }
{
    if !fit {
        return Err(Problem::LineNotRead { line });
    }
    if !kept {
        return Err(Problem::LimitPassed);
    }
    Ok(accept(t, d, seg))
}

// Line by line. After a limit is passed only the order of lines is looked at.
fn read_lines(text: &[u8]) -> Result<Sheet, Problem>
    requires { length text.now ≤ 65536 }
    ensures { result ≡ sheet_of_lines text.now }
{
    let mut seg = draft::no_outlines();
    let mut made = draft::no_draft();
    let mut tally = limits::no_tally();
    let mut good = true;
    let mut stands = grammar::no_line();
    let mut n: usize = 1;
    let mut at: usize = 0;
    loop {
        let e = text::fields::find(text, at, b'\n');
        let line = &text[at..e];
        if e == text.len() {
            let fit = grammar::may_end(line.len(), stands);
            return end(fit, n, good, tally, made, seg);
        }
        let r = text::records::record_of(line);
        if !grammar::may_follow(stands, r) {
            return Err(Problem::LineNotRead { line: n });
        }
        stands = grammar::after(stands, r);
        n += 1;
        at = e + 1;
        if good {
            let t = tally;
            tally = limits::count(t, r);
            good = limits::within(tally);
            if good {
                made = draft::put(made, t, r);
                if let Record::Edge(drawn) = r {
                    seg[t.segs] = OutlineSeg { seg: drawn };
                }
            }
        }
    }
}

// What a sheet text writes; 1 to 3.
#[tactic(auto, unfolding(crate::specs::Read::written_in))]
fn written(text: &[u8]) -> Result<Sheet, Problem>
    ensures { result ≡ written_in text.now }
{
    if 65536 < text.len() {
        return Err(Problem::TextTooLong);
    }
    read_lines(text)
}

// 11: not one T line for each coordinate.
fn entries_checked(entries: usize, coords: usize) -> Result<(), Problem>
    ensures { result ≡ entries_checked entries coords }
{
    if entries == coords {
        return Ok(());
    }
    Err(Problem::PoseNotMatching)
}

// The first refusal that applies to a description and its entries.
#[tactic(auto, unfolding(crate::specs::Read::sheet_checked))]
fn sheet_checked(s: Sheet) -> Result<(), Problem>
    ensures { result ≡ sheet_checked s }
{
    check(s.mechanism)?;
    entries_checked(s.entries.count, s.mechanism.bodies.coords)
}

// What a sheet text says.
#[tactic(auto, unfolding(crate::specs::Read::sheet_of))]
pub fn read(text: &[u8]) -> Result<Sheet, Problem>
    ensures { result ≡ sheet_of text.now }
{
    let s = written(text)?;
    sheet_checked(s)?;
    Ok(s)
}
