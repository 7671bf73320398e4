// Texts with a mark before each byte of a range: a 255 before each 255 of a line, an ESC before each code of an
// environment string.
#![tactic(auto)]

ghost use Rattle.std.specs.Prelude.{◌≡◌, true, ◌&&◌, [], ◌∷◌, ℕ, ◌+◌, ◌≤◌, leb, length, take, drop};
ghost use Rattle.octets.specs.Lent.{outcome, overwrite, IsPut};
ghost use Rattle.octets_marked.specs.Marked.{marked, put_marked};
ghost use Rattle.octets_marked.specs.Internal.Turn.{Plain, Further};

// Whether a byte lies in a range, its two ends included.
fn lies(b: u8, low: u8, high: u8) -> bool
    ensures { result ≡ (leb low b && leb b high) }
{
    if b < low {
        return false;
    }
    b <= high
}

// How many bytes a text takes with a mark before each byte of a range, whatever the mark is.
pub fn marked_length(bytes: &[u8], low: u8, high: u8) -> usize
    ensures { (mark : ℕ) → result ≡ length (marked mark low high bytes.now) }
{
    let mut marks = 0;
    for b in bytes {
        if lies(*b, low, high) {
            marks += 1;
        }
    }
    bytes.len() + marks
}

// Puts a byte at a place, after its mark where it has one; the answer is the place after it.
fn put_byte(b: u8, mark: u8, low: u8, high: u8, out: &mut [u8], at: usize) -> usize
    requires { at + length (marked mark low high (b ∷ [])) ≤ length out.old }
    ensures { IsPut (marked mark low high (b ∷ [])) out.old at result out.new }
{
    if lies(b, low, high) {
        out[at] = mark;
        out[at + 1] = b;
        return at + 2;
    }
    out[at] = b;
    at + 1
}

// Whether none of the eight bytes at a place lies in a range. Every one is looked at, so that they can be compared at
// once.
fn eight_plain(bytes: &[u8], at: usize, low: u8, high: u8) -> bool
    requires { at + 8 ≤ length bytes.now }
    ensures { result ≡ true → (mark : ℕ) → Plain mark low high bytes.now at 8 }
{
    let mut plain = true;
    for j in 0..8 {
        if lies(bytes[at + j], low, high) {
            plain = false;
        }
    }
    plain
}

// Copies eight bytes.
fn copy_eight(bytes: &[u8], from: usize, out: &mut [u8], to: usize)
    requires { (from + 8 ≤ length bytes.now) × (to + 8 ≤ length out.old) }
    ensures { out.new ≡ overwrite out.old to (take 8 (drop from bytes.now)) }
{
    for j in 0..8 {
        out[to + j] = bytes[from + j];
    }
}

// Puts the bytes between two places of a text, one at a time; the answer is the place after them.
fn put_bytes(
    bytes: &[u8],
    from: usize,
    end: usize,
    mark: u8,
    low: u8,
    high: u8,
    out: &mut [u8],
    at: usize,
) -> usize
    requires { (from ≤ end) × (end ≤ length bytes.now) × (at + length (marked mark low high (drop from bytes.now)) ≤ length out.old) }
    ensures { Further mark low high bytes.now from out.old at end result out.new }
{
    let mut k = at;
    for i in from..end {
        k = put_byte(bytes[i], mark, low, high, out, k);
    }
    k
}

// Puts eight bytes: all at once where none of them has a mark.
fn put_eight(
    bytes: &[u8],
    from: usize,
    mark: u8,
    low: u8,
    high: u8,
    out: &mut [u8],
    at: usize,
) -> usize
    requires { (from + 8 ≤ length bytes.now) × (at + length (marked mark low high (drop from bytes.now)) ≤ length out.old) }
    ensures { Further mark low high bytes.now from out.old at (from + 8) result out.new }
{
    if eight_plain(bytes, from, low, high) {
        copy_eight(bytes, from, out, at);
        return at + 8;
    }
    put_bytes(bytes, from, from + 8, mark, low, high, out, at)
}

// Puts a text at a place of the buffer, with a mark before each byte of a range; the answer is the place after it.
// Where it does not fit, nothing is written and the answer is the place itself.
pub fn put_marked(bytes: &[u8], mark: u8, low: u8, high: u8, out: &mut [u8], at: usize) -> usize
    ensures { outcome result out.new ≡ put_marked mark low high bytes.now out.old at }
{
    if octets::no_room(marked_length(bytes, low, high), at, out.len()) {
        return at;
    }
    let mut i = 0;
    let mut k = at;
    while 8 <= bytes.len() - i {
        k = put_eight(bytes, i, mark, low, high, out, k);
        i += 8;
    }
    put_bytes(bytes, i, bytes.len(), mark, low, high, out, k)
}
