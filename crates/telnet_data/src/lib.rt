// The scanning of data: a stretch of bytes of a line in which each 255 is doubled. What is answered, and left in a
// buffer, is said in `specs/Promise.antt`.
#![tactic(auto)]

ghost use Rattle.std.specs.Prelude.{◌≡◌, ◌≤◌, length, drop};
ghost use Rattle.octets.specs.Lent.{outcome};
ghost use Rattle.telnet_data.specs.Promise.{extent_at, copy_run};
ghost use Rattle.telnet_data.specs.Internal.Pieces.{is_doubled, PlainCopied};

use telnet::IAC;

// The stretch of data at a place: how many bytes it carries, and the place after it.
#[derive(Clone, Copy)]
pub struct Extent {
    pub count: usize,
    pub end: usize,
}

// Whether a doubled 255 is at a place.
fn is_doubled(s: &[u8], at: usize) -> bool
    ensures { result ≡ is_doubled (drop at s.now) }
{
    if s.len() <= at {
        return false;
    }
    if s.len() - at < 2 {
        return false;
    }
    s[at] == IAC && s[at + 1] == IAC
}

// The longest stretch of data at a place.
pub fn measure(s: &[u8], at: usize) -> Extent
    ensures { result ≡ extent_at s.now at }
{
    let mut i = at;
    let mut n = 0;
    while i < s.len() {
        let plain = octets_find::find_byte(s, i, IAC);
        n += plain - i;
        if !is_doubled(s, plain) {
            return Extent {
                count: n,
                end: plain,
            };
        }
        n += 1;
        i = plain + 2;
    }
    Extent { count: n, end: i }
}

// Copies the bytes before the next 255, or as many of them as there is room for; the answer is how many.
fn copy_plain(s: &[u8], at: usize, out: &mut [u8], to: usize) -> usize
    requires { to ≤ length out.old }
    ensures { PlainCopied s.now at out.old to result out.new }
{
    let n = (octets_find::find_byte(s, at, IAC) - at).min(out.len() - to);
    // Between two doubled 255s there is nothing: no copy is made of it.
    if n == 0 {
        return 0;
    }
    octets::put(octets_part::part(s, at, n), out, to);
    n
}

// Copies the stretch of data at a place, each doubled 255 as one, to a place of the buffer, or as much of it as there
// is room for: how many bytes were copied, and the place of the line after them.
pub fn copy_run(s: &[u8], at: usize, out: &mut [u8], to: usize) -> Extent
    ensures { outcome result out.new ≡ copy_run s.now at out.old to }
{
    let mut i = at;
    let mut k = to;
    while k < out.len() {
        let n = copy_plain(s, i, out, k);
        i += n;
        k += n;
        if out.len() <= k {
            return Extent {
                count: k - to,
                end: i,
            };
        }
        if !is_doubled(s, i) {
            return Extent {
                count: k - to,
                end: i,
            };
        }
        out[k] = IAC;
        i += 2;
        k += 1;
    }
    Extent {
        count: k - to,
        end: i,
    }
}
