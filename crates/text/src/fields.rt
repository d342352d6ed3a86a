// The pieces of a text that a byte parts, and the fields of a line: whole numbers, floats and letters.
ghost use Rattle.std.specs.Prelude.{◌≡◌, cond, Some, None};
ghost use Rattle.text.specs.Pieces.{piece_end, fields_of};
ghost use Rattle.text.specs.Fields.{is_digit, written, number_of, hex_of, is_hex, float_of, letter_of, is_role, is_kind, fits_form, field_at, number_at, real_at, letter_at};

// The end of the piece that starts at `at`: the next byte c, or the end of the text.
pub fn find(s: &[u8], at: usize, c: u8) -> usize
    ensures { result ≡ piece_end c s.now at }
{
    for i in at..s.len() {
        if s[i] == c {
            return i;
        }
    }
    at.max(s.len())
}

fn is_digit(b: u8) -> bool
    ensures { result ≡ is_digit b }
{
    matches!(b, b'0'..=b'9')
}

// At least one byte, and no leading zero.
#[tactic(auto, unfolding(crate::specs::Fields::written))]
fn well_written(f: &[u8]) -> bool
    ensures { result ≡ written f.now }
{
    !matches!(f, [] | [b'0', _, ..])
}

// The whole number that a field is.
pub fn number_of(f: &[u8]) -> Option<usize>
    ensures { result ≡ number_of f.now }
{
    if !well_written(f) {
        return None;
    }
    let mut v: usize = 0;
    for b in f {
        if !is_digit(*b) {
            return None;
        }
        v = v * 10 + usize::from(*b - b'0');
        if 65535 < v {
            return None;
        }
    }
    Some(v)
}

// The value of a lowercase hexadecimal digit.
fn hex_value(b: u8) -> Option<u64>
    ensures { result ≡ cond (is_hex b) (Some (hex_of b)) None }
{
    match b {
        b'0'..=b'9' => Some(u64::from(b - b'0')),
        b'a'..=b'f' => Some(u64::from(b - b'a') + 10),
        _ => None,
    }
}

// The float that a field is.
pub fn real_of(f: &[u8]) -> Option<f64>
    ensures { result ≡ float_of f.now }
{
    if f.len() != 16 {
        return None;
    }
    let mut v: u64 = 0;
    for b in f {
        v = v * 16 + hex_value(*b)?;
    }
    Some(ieee::bits::of_pattern(v))
}

// The letter that a field is, or 0.
#[tactic(auto, unfolding(crate::specs::Fields::letter_of))]
pub fn letter_of(f: &[u8]) -> u8
    ensures { result ≡ letter_of f.now }
{
    match f {
        [b] => *b,
        _ => 0,
    }
}

fn is_role(b: u8) -> bool
    ensures { result ≡ is_role b }
{
    matches!(b, b'S' | b'C' | b'L')
}

// A field is of a kind: n a whole number, f a float, r a role's letter, a capital letter that letter.
#[tactic(auto, unfolding(crate::specs::Fields::is_kind))]
fn is_kind(kind: u8, f: &[u8]) -> bool
    ensures { result ≡ is_kind kind f.now }
{
    match kind {
        b'n' => number_of(f).is_some(),
        b'f' => real_of(f).is_some(),
        b'r' => is_role(letter_of(f)),
        _ => letter_of(f) == kind,
    }
}

// The fields of a line are of the kinds of a form, one for one.
pub fn fits(line: &[u8], form: &[u8]) -> bool
    ensures { result ≡ fits_form form.now (fields_of line.now) }
{
    let mut at: usize = 0;
    for (j, kind) in form.iter().enumerate() {
        let e = find(line, at, b',');
        if !is_kind(*kind, &line[at..e]) {
            return false;
        }
        if e == line.len() {
            return j + 1 == form.len();
        }
        at = e + 1;
    }
    false
}

// The field j of a line, or nothing where it has fewer.
pub fn field(line: &[u8], j: usize) -> &[u8]
    ensures { result.now ≡ field_at (fields_of line.now) j }
{
    let mut at: usize = 0;
    for i in 0..j {
        let e = find(line, at, b',');
        if e == line.len() {
            return &line[e..];
        }
        at = e + 1;
    }
    let e = find(line, at, b',');
    &line[at..e]
}

// The field j as a whole number, as a float, as a letter.
pub fn number_at(line: &[u8], j: usize) -> usize
    ensures { result ≡ number_at (fields_of line.now) j }
{
    number_of(field(line, j)).unwrap_or(0)
}

pub fn real_at(line: &[u8], j: usize) -> f64
    ensures { result ≡ real_at (fields_of line.now) j }
{
    real_of(field(line, j)).unwrap_or(0.0)
}

pub fn letter_at(line: &[u8], j: usize) -> u8
    ensures { result ≡ letter_at (fields_of line.now) j }
{
    letter_of(field(line, j))
}
