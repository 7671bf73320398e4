// The listing of a stream, for a caller in C. A `refusal` is 0 where there is none; else it is the refusal's number,
// and the length is 0. A slice is a pointer and a length.
#![tactic(auto)]

ghost use Rattle.std.specs.Prelude.{◌≡◌};
ghost use Rattle.export.specs.Numbers.{numbered, written_numbers};
ghost use Rattle.telnet_reader.specs.Promise.{look_at};
ghost use Rattle.telnet_line.specs.Line.{answer_text, line};
ghost use Rattle.telnet_listing.specs.Listing.{listing};
ghost use Rattle.refusal.specs.Written.{written_into};
ghost use Rattle.octets.specs.Lent.{outcome};

use export::TvWritten;

// The line of what is at a place, at the front of `out`: 67 bytes are always enough. Refused by 4.
pub fn tv_line(s: &[u8], at: usize, out: &mut [u8]) -> TvWritten
    ensures { outcome result out.new ≡ numbered written_numbers (written_into (line at (answer_text (look_at s.now at))) out.old) }
{
    let answer = telnet_reader::look(s, at);
    export::written_numbers(telnet_line::line(at, answer, out))
}

// The whole listing of a stream, at the front of `out`. Refused by 4.
pub fn tv_list(s: &[u8], out: &mut [u8]) -> TvWritten
    ensures { outcome result out.new ≡ numbered written_numbers (written_into (listing s.now) out.old) }
{
    export::written_numbers(telnet_listing::list(s, out))
}
