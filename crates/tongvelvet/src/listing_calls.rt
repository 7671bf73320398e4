// The calls of `export_listing`, for a caller in C: each is the function of that name there, with its promise.
ghost use Rattle.std.specs.Prelude.{◌≡◌};
ghost use Rattle.export.specs.Numbers.{numbered, written_numbers};
ghost use Rattle.telnet_reader.specs.Promise.{look_at};
ghost use Rattle.telnet_line.specs.Line.{answer_text, line};
ghost use Rattle.telnet_listing.specs.Listing.{listing};
ghost use Rattle.refusal.specs.Written.{written_into};
ghost use Rattle.octets.specs.Lent.{outcome};

use export::TvWritten;

// The line of what is at a place, at the front of `out`: 67 bytes are always enough. Refused by 4.
#[unsafe(no_mangle)]
pub extern "C" fn tv_line(s: &[u8], at: usize, out: &mut [u8]) -> TvWritten
    ensures { outcome result out.new ≡ numbered written_numbers (written_into (line at (answer_text (look_at s.now at))) out.old) }
{
    export_listing::tv_line(s, at, out)
}

// The whole listing of a stream, at the front of `out`. Refused by 4.
#[unsafe(no_mangle)]
pub extern "C" fn tv_list(s: &[u8], out: &mut [u8]) -> TvWritten
    ensures { outcome result out.new ≡ numbered written_numbers (written_into (listing s.now) out.old) }
{
    export_listing::tv_list(s, out)
}
