// The library for callers in C and Rust: a sheet text in, its listing out. Nothing is kept between calls and nothing is allocated; the caller owns both arrays.
#![tactic(auto)]

ghost use Rattle.std.specs.Prelude.{◌≤◌, ◌≡◌, length};
ghost use Rattle.std.proofs.lemmas.List.Edits.{sets};
ghost use Rattle.reading_lines.specs.Readings.{longest};
ghost use Rattle.listing.specs.Listing.{listing_of};

use reading_lines::whole::Listed;

// The size of `out` in bytes. No listing is longer.
#[unsafe(no_mangle)]
pub extern "C" fn sewqirun_longest() -> usize
    ensures { result ≡ longest }
{
    192352
}

// Writes the listing of a sheet text from the front of `out`, and answers how long it is, at most the size of `out`; everything behind it stays.
#[unsafe(no_mangle)]
pub extern "C" fn sewqirun_listing(text: &[u8], out: &mut Listed) -> usize
    ensures value { (result ≡ length (listing_of text.now)) × (out.new ≡ sets out.old 0 (listing_of text.now)) }
    ensures fits { result ≤ longest }
{
    listing::whole::listing(text, out)
}
