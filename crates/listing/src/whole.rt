// The listing of a sheet text: its readings, or the first refusal that applies.
ghost use Rattle.std.specs.Prelude.{◌≤◌, ◌≡◌, length};
ghost use Rattle.std.proofs.lemmas.List.Edits.{sets};
ghost use Rattle.reading_lines.specs.Lines.{Wrote};
ghost use Rattle.reading_lines.specs.Readings.{longest};
ghost use Rattle.listing.specs.Listing.{posed_lines, listing_of};

use mechanism::Mechanism;
use reading_lines::whole::{Listed, read_lines, refused};
use sheet::Entries;
use sheet::posed::posed;

// The readings of a description for the entries of a text.
fn posed_lines(out: &mut Listed, m: Mechanism, e: Entries, margin: f64) -> usize
    ensures { Wrote out.old 0 (posed_lines m e margin) result out.new }
{
    match posed(m, e) {
        Ok(q) => read_lines(out, m, q, margin),
        Err(x) => refused(out, x),
    }
}

// Writes the listing of a sheet text from the front, and answers how long it is, at most `longest`, the length of the array; everything behind it stays.
pub fn listing(text: &[u8], out: &mut Listed) -> usize
    ensures value { (result ≡ length (listing_of text.now)) × (out.new ≡ sets out.old 0 (listing_of text.now)) }
    ensures fits { result ≤ longest }
{
    match sheet::read(text) {
        Ok(s) => posed_lines(out, s.mechanism, s.entries, s.margin),
        Err(p) => refused(out, p),
    }
}
