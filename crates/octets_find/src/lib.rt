// The first of a byte among lent bytes. What is right is said in the crate `octets`, in `specs/Find.antt`.
#![tactic(auto)]

ghost use Rattle.std.specs.Prelude.{◌≡◌, ◌+◌, ◌≤◌, ltb, length, drop};
ghost use Rattle.octets.specs.Find.{up_to};

// Whether the byte is among the eight at a place. Every one is looked at, so that they can be compared at once.
fn is_among(text: &[u8], at: usize, b: u8) -> bool
    requires { at + 8 ≤ length text.now }
    ensures { result ≡ ltb (length (up_to b (drop at text.now))) 8 }
{
    let mut found = false;
    for j in 0..8 {
        if text[at + j] == b {
            found = true;
        }
    }
    found
}

// Passes eight bytes at a time, as long as the byte is not among them: no `b` lies between `at` and the answer.
fn pass_eights(text: &[u8], at: usize, b: u8) -> usize
    ensures { result + length (up_to b (drop result text.now)) ≡ at + length (up_to b (drop at text.now)) }
{
    if text.len() < 8 {
        return at;
    }
    let last = text.len() - 8;
    let mut place = at;
    while place <= last {
        if is_among(text, place, b) {
            return place;
        }
        place += 8;
    }
    place
}

// The place of the first byte `b` from a place on, or where the text ends.
pub fn find_byte(text: &[u8], at: usize, b: u8) -> usize
    ensures { result ≡ at + length (up_to b (drop at text.now)) }
{
    let start = pass_eights(text, at, b);
    for i in start..text.len() {
        if text[i] == b {
            return i;
        }
    }
    start.max(text.len())
}
