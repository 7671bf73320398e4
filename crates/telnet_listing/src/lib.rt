// The listing of a stream: a line for each event, with its place, and one for how the stream ended. What is right is
// said in `specs/`: start with `Listing.antt`.
#![tactic(auto)]

ghost use Rattle.std.specs.Prelude.{◌≡◌, ◌≤◌, length};
ghost use Rattle.octets.specs.Lent.{outcome, at_front};
ghost use Rattle.refusal.specs.Written.{written_into};
ghost use Rattle.telnet_listing.specs.Listing.{listing};
ghost use Rattle.telnet_listing.specs.Printed.{printed};
ghost use Rattle.telnet_listing.specs.Internal.Sized.{sized};

use refusal::Refusal;

// How many bytes may come, and room for what is printed for them.
pub const LIMIT: usize = 65536;

pub const ROOM: usize = 13 * LIMIT + 16;

// How long the whole listing is, if there is room for it. To go on past the room might wrap the sum, so it stops there.
fn listing_length(s: &[u8], room: usize) -> Result<usize, Refusal>
    ensures { result ≡ sized (listing s.now) room }
{
    let mut i = 0;
    let mut total = 0;
    loop {
        let answer = telnet_reader::look(s, i);
        let text = telnet_line::line_text(i, answer);
        let n = text.length;
        if room - total < n {
            return Err(Refusal::NoRoom);
        }
        total += n;
        let Some(found) = answer.unwrap_or(None) else {
            return Ok(total);
        };
        i = found.next;
    }
}

// Puts the whole listing to the front, and answers its length.
fn put_lines(s: &[u8], out: &mut [u8]) -> usize
    requires { length (listing s.now) ≤ length out.old }
    ensures { outcome result out.new ≡ at_front (listing s.now) out.old }
{
    let mut i = 0;
    let mut at = 0;
    loop {
        let answer = telnet_reader::look(s, i);
        let line = telnet_line::line_text(i, answer);
        let bytes = line.bytes;
        let n = line.length;
        octets::put(&bytes[0..n], out, at);
        at += n;
        let Some(found) = answer.unwrap_or(None) else {
            return at;
        };
        i = found.next;
    }
}

// The whole listing. What does not fit is not begun: the lengths are added up first.
pub fn list(s: &[u8], out: &mut [u8]) -> Result<usize, Refusal>
    ensures { outcome result out.new ≡ written_into (listing s.now) out.old }
{
    listing_length(s, out.len())?;
    Ok(put_lines(s, out))
}

// What the listing program prints for its input: at the front, with its length. `ROOM` is enough, so there is no
// refusal.
pub fn print(input: &[u8], out: &mut [u8; ROOM]) -> usize
    ensures { outcome result out.new ≡ at_front (printed input.now) out.old }
{
    if LIMIT < input.len() {
        octets::put(b"TOO LONG\n", out, 0);
        return 9;
    }
    put_lines(input, out)
}
