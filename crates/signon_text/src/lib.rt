// The line that the program `explain` prints for its input. What is right is said in `specs/Printed.antt`.
#![tactic(auto)]

ghost use Rattle.std.specs.Prelude.{◌≡◌, ◌++◌};
ghost use Rattle.octets.specs.Ascii.{ascii};
ghost use Rattle.octets.specs.Decimal.{decimal};
ghost use Rattle.octets.specs.Lent.{outcome, at_front};
ghost use Rattle.signon_text.specs.Printed.{explained as explained_in, line_of, printed};

use password_check::SEED_LENGTH;
use refusal::Refusal;
use signon::Reason;

// The most bytes of input, and room for every line.
pub const LIMIT: usize = 65536;

pub const ROOM: usize = signon_words::ROOM;

fn put_refusal(number: u8, out: &mut [u8; ROOM]) -> usize
    ensures { outcome result out.new ≡ at_front (ascii "REFUSED " ++ decimal number ++ ascii "\n") out.old }
{
    let n = number as u64;
    let end = 8 + octets::decimal_length(n);
    octets::put(b"REFUSED ", out, 0);
    octets::put_decimal(n, out, 8);
    octets::put(b"\n", out, end);
    end + 1
}

fn put_explained(explained: Result<Reason, Refusal>, out: &mut [u8; ROOM]) -> usize
    ensures { outcome result out.new ≡ at_front (line_of explained) out.old }
{
    match explained {
        Ok(reason) => signon_words::put_reason(reason, out),
        Err(e) => put_refusal(e.number(), out),
    }
}

// The server seed is the first eight bytes; the table comes after its length, and the payload after the table.
fn explained(input: &[u8]) -> Result<Reason, Refusal>
    ensures { result ≡ explained_in input.now }
{
    signon_reason::explain(
        octets_part::part(input, 0, SEED_LENGTH),
        show_input::announced(input, SEED_LENGTH),
        show_input::left_after(input, SEED_LENGTH),
    )
}

// What the program prints for its input: at the front, with its length. `ROOM` is enough, so there is no refusal.
pub fn print(input: &[u8], out: &mut [u8; ROOM]) -> usize
    ensures { outcome result out.new ≡ at_front (printed input.now) out.old }
{
    if LIMIT < input.len() {
        octets::put(b"TOO LONG\n", out, 0);
        return 9;
    }
    put_explained(explained(input), out)
}
