// Option commands put on the line in the call that steps the sides: where a command finds no room, no step is taken.
// What is right is said in `specs/Line.antt`; the rules are in the crates `option_rules` and `option_sides`.
#![tactic(auto)]

ghost use Rattle.std.specs.Prelude.{◌≡◌};
ghost use Rattle.octets.specs.Lent.{outcome};
ghost use Rattle.telnet.specs.Event.{negotiation};
ghost use Rattle.telnet.specs.Write.{written};
ghost use Rattle.telnet_reader.specs.Promise.{look_at};
ghost use Rattle.option_line.specs.Line.{sent, sent_by, received_on, requested_on, heard_event, heard_on};
ghost use Rattle.option_line.specs.Internal.Kinds.{kind_of};

use option_rules::Command;
use option_sides::{Answered, Sides};
use option_verbs::{Outgoing, Whose};
use refusal::Refusal;
use telnet::{Kind, Verb};

// The sides afterwards; a refusal, or the note `OffAnsweredByOn`; and the place after what was put on the line.
#[derive(Clone, Copy)]
pub struct Sent {
    pub sides: Sides,
    pub refusal: Option<Refusal>,
    pub place: usize,
}

fn after(sides: Sides, refusal: Option<Refusal>, place: usize) -> Sent
    ensures { result ≡ sent sides refusal place }
{
    Sent {
        sides,
        refusal,
        place,
    }
}

// An option command has three bytes, for which there is room: the writer refuses nothing.
fn command_bytes(command: Outgoing) -> [u8; 3]
    ensures { result ≡ written (negotiation command.verb command.option) }
{
    let mut bytes = [0u8; 3];
    let _ = telnet_writer::write(
        Kind::Negotiation(command.verb, command.option),
        b"",
        &mut bytes,
    );
    bytes
}

// What the rules answered, carried out: `sides` is what they were given.
fn send(sides: Sides, answered: Answered, line: &mut [u8], at: usize) -> Sent
    ensures { outcome result line.new ≡ sent_by sides answered line.old at }
{
    let Some(command) = answered.writes else {
        return after(answered.sides, answered.refusal, at);
    };
    if octets::put(&command_bytes(command), line, at) {
        return after(answered.sides, answered.refusal, at + 3);
    }
    after(sides, Some(Refusal::NoRoom), at)
}

// WILL, WONT, DO or DONT was received, with its option byte; on is accepted or declined where that is open. The answer
// goes on the line at a place. A place past the end is 5, and an answer that does not fit 4: then sides and line are as
// they were.
#[tactic(auto, unfolding(crate::specs::Line::received_on, crate::specs::Line::unless_past))]
pub fn receive(
    sides: Sides,
    verb: Verb,
    option: u8,
    accept: bool,
    line: &mut [u8],
    at: usize,
) -> Sent
    ensures { outcome result line.new ≡ received_on sides verb option accept line.old at }
{
    if line.len() < at {
        return after(sides, Some(Refusal::PastTheEnd), at);
    }
    let answered = sides.receive(verb, option, accept);
    send(sides, answered, line, at)
}

// This end asks for a side to be on or off. The command goes on the line in the same way.
#[tactic(auto, unfolding(crate::specs::Line::requested_on, crate::specs::Line::unless_past))]
pub fn request(
    sides: Sides,
    whose: Whose,
    option: u8,
    command: Command,
    line: &mut [u8],
    at: usize,
) -> Sent
    ensures { outcome result line.new ≡ requested_on sides whose option command line.old at }
{
    if line.len() < at {
        return after(sides, Some(Refusal::PastTheEnd), at);
    }
    let answered = sides.request(whose, option, command);
    send(sides, answered, line, at)
}

// This end hears an event that was read, and answers it on its line if it is an option command, as `receive` does. Any
// other concerns no option: nothing is refused, and sides, line and place are as they were.
pub fn hear_event(sides: Sides, kind: Kind, accept: bool, line: &mut [u8], at: usize) -> Sent
    ensures { outcome result line.new ≡ heard_event sides kind accept line.old at }
{
    match kind {
        Kind::Negotiation(verb, option) => {
            return receive(sides, verb, option, accept, line, at);
        }
        _ => return after(sides, None, at),
    }
}

// The kind of the event at a place of a line. A function of its own, so that the reader's whole answer is off the stack
// before the event is heard.
fn kind_at(heard: &[u8], from: usize) -> Result<Option<Kind>, Refusal>
    ensures { result ≡ kind_of (look_at heard.now from) }
{
    let Some(found) = telnet_reader::look(heard, from)? else {
        return Ok(None);
    };
    Ok(Some(found.kind))
}

// This end hears what is at a place of the other's line, and answers it on its own line if it is an option command.
// A place past the end of either line is 5; what cannot be read is refused as the reader does.
#[tactic(auto, unfolding(crate::specs::Line::heard_on, crate::specs::Line::unless_past))]
pub fn hear(
    sides: Sides,
    heard: &[u8],
    from: usize,
    accept: bool,
    line: &mut [u8],
    at: usize,
) -> Sent
    ensures { outcome result line.new ≡ heard_on sides heard.now from accept line.old at }
{
    if line.len() < at {
        return after(sides, Some(Refusal::PastTheEnd), at);
    }
    match kind_at(heard, from) {
        Ok(Some(kind)) => return hear_event(sides, kind, accept, line, at),
        Ok(None) => return after(sides, None, at),
        Err(refusal) => return after(sides, Some(refusal), at),
    }
}
