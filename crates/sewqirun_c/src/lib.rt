// The functions of `sewqirun` for callers in C and Rust, as a static library: each has the clauses of the one that it calls.
#![tactic(auto)]

ghost use Rattle.std.specs.Prelude.{◌≤◌, ◌≡◌, length};
ghost use Rattle.std.proofs.lemmas.List.Edits.{sets};
ghost use Rattle.reading_lines.specs.Readings.{longest};
ghost use Rattle.listing.specs.Listing.{listing_of};

use reading_lines::whole::Listed;

// `sewqirun::sewqirun_longest`.
#[unsafe(no_mangle)]
pub extern "C" fn sewqirun_longest() -> usize
    ensures { result ≡ longest }
{
    sewqirun::sewqirun_longest()
}

// `sewqirun::sewqirun_listing`.
#[unsafe(no_mangle)]
pub extern "C" fn sewqirun_listing(text: &[u8], out: &mut Listed) -> usize
    ensures value { (result ≡ length (listing_of text.now)) × (out.new ≡ sets out.old 0 (listing_of text.now)) }
    ensures fits { result ≤ longest }
{
    sewqirun::sewqirun_listing(text, out)
}
