// A text in EBCDIC, padded with blanks to a width. What is right is said in the crate `names`, in `specs/Ebcdic.antt`
// and `specs/Padding.antt`.
#![tactic(auto)]

ghost use Rattle.std.specs.Prelude.{◌≡◌, get_or};
ghost use Rattle.octets.specs.Lent.{outcome};
ghost use Rattle.octets.specs.Promise.{put_at};
ghost use Rattle.names.specs.Padding.{filled};
ghost use Rattle.names.specs.Ebcdic.{blank, ebcdic_of};

use names::{ebcdic, raise};

// EBCDIC's blank.
const BLANK: u8 = 0x40;

// The byte at a place of the EBCDIC of a text, and after its end the blank.
fn ebcdic_at(text: &[u8], at: usize) -> u8
    ensures { result ≡ get_or (ebcdic_of text.now) at blank }
{
    if at < text.len() {
        return ebcdic(raise(text[at]));
    }
    BLANK
}

// Puts the EBCDIC of a text, padded with blanks to a width, at a place of the buffer; where it does not fit, writes
// nothing and answers false.
pub fn put_ebcdic(text: &[u8], width: usize, out: &mut [u8], at: usize) -> bool
    ensures { outcome result out.new ≡ put_at (filled blank width (ebcdic_of text.now)) out.old at }
{
    let count = text.len().max(width);
    if octets::no_room(count, at, out.len()) {
        return false;
    }
    for i in 0..count {
        out[at + i] = ebcdic_at(text, i);
    }
    true
}
