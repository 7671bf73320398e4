// The line of one event: its place, and what it is. What is right is said in `specs/`: start with `Line.antt`.
#![tactic(auto)]

ghost use Rattle.std.specs.Prelude.{◌≡◌};
ghost use Rattle.octets.specs.Lent.{outcome};
ghost use Rattle.telnet_line.specs.Line.{answer_text_by, line as line_of};
ghost use Rattle.telnet_line.specs.Promise.{text_of_line};
ghost use Rattle.refusal.specs.Written.{written_into};

use refusal::{Numbered, Refusal};
use telnet_reader::Found;

mod words;

// The text of a line with zeros after it, and its length: no line is longer than 67 bytes.
#[derive(Clone, Copy)]
pub struct LineText {
    pub bytes: [u8; 67],
    pub length: usize,
}

// The line of what is at a place, or of a refusal there by any number.
pub fn line_text<E: Numbered>(place: usize, answer: Result<Option<Found>, E>) -> LineText
    ensures { result ≡ text_of_line (line_of place (answer_text_by E.number_of answer)) }
{
    let phrase = words::answer_phrase(answer);
    let mut bytes = [0u8; 67];
    let length = words::compose(place, phrase, &mut bytes);
    LineText { bytes, length }
}

// The line of what is at a place, put to the front of the buffer.
pub fn line<E: Numbered>(
    place: usize,
    answer: Result<Option<Found>, E>,
    out: &mut [u8],
) -> Result<usize, Refusal>
    ensures { outcome result out.new ≡ written_into (line_of place (answer_text_by E.number_of answer)) out.old }
{
    let text = line_text(place, answer);
    let bytes = text.bytes;
    let n = text.length;
    if out.len() < n {
        return Err(Refusal::NoRoom);
    }
    octets::put(&bytes[0..n], out, 0);
    Ok(n)
}
