// What a byte after a 255 begins, for every reader of a line. What is right is said in the crate `telnet`, in
// `specs/Event.antt`.
#![tactic(auto)]

ghost use Rattle.std.specs.Prelude.{◌≡◌};
ghost use Rattle.telnet.specs.Event.{lead};

use telnet::{DO, DONT, EOR, Lead, SB, SE, Verb, WILL, WONT};

// What a byte after a 255 that is not doubled begins.
#[tactic(auto, unfolding(telnet::specs::Event::lead))]
pub fn lead_of(c: u8) -> Lead
    ensures { result ≡ lead c }
{
    if c < EOR {
        return Lead::Faulty;
    }
    match c {
        SE => Lead::Faulty,
        SB => Lead::Opens,
        WILL => Lead::Negotiates(Verb::Will),
        WONT => Lead::Negotiates(Verb::Wont),
        DO => Lead::Negotiates(Verb::Do),
        DONT => Lead::Negotiates(Verb::Dont),
        _ => Lead::Simple,
    }
}
