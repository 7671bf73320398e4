// A reason as a line of text. Its words are said in the crate `signon`, in `specs/Reason.antt`.
#![tactic(auto)]

ghost use Rattle.std.specs.Prelude.{◌≡◌, ◌++◌, ◌<◌, length};
ghost use Rattle.octets.specs.Ascii.{ascii};
ghost use Rattle.octets.specs.Lent.{outcome, at_front};
ghost use Rattle.signon.specs.Reason.{words_of};

use signon::Reason;

// Room for every line.
pub const ROOM: usize = 32;

// The words of a reason, which leave room for the end of the line.
fn words(reason: Reason) -> &'static [u8]
    ensures words { result.now ≡ words_of reason }
    ensures room { length result.now < 32 }
{
    match reason {
        Reason::PanelAskedFor => b"panel asked for",
        Reason::NoUser => b"no USER",
        Reason::BadName => b"bad name",
        Reason::NotInTheTable => b"not in the table",
        Reason::Disabled => b"disabled",
        Reason::SeedVariableMissing => b"seed variable missing",
        Reason::SubstituteMissing => b"substitute missing",
        Reason::SeedLength => b"seed length",
        Reason::SubstituteLength => b"substitute length",
        Reason::DesNotAllowed => b"DES not allowed",
        Reason::ClearPasswordMalformed => b"clear password malformed",
        Reason::TokenDiffers => b"token differs",
        Reason::Granted => b"granted",
    }
}

// The line of a reason: at the front, with its length. `ROOM` is enough, so there is no refusal.
pub fn put_reason(reason: Reason, out: &mut [u8; ROOM]) -> usize
    ensures { outcome result out.new ≡ at_front (words_of reason ++ ascii "\n") out.old }
{
    let text = words(reason);
    let n = text.len();
    octets::put(text, out, 0);
    octets::put(b"\n", out, n);
    n + 1
}
