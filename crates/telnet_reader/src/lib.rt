// Reading one event at a place of a line. The caller owns the buffer; nothing is kept between calls. What is right is
// said in the crate `telnet`; what is answered, and left in the buffer, in `specs/Promise.antt`.
#![tactic(auto)]

ghost use Rattle.std.specs.Prelude.{◌≡◌, ◌+◌, ◌-◌, ◌<◌, ◌^◌, leb, length, drop};
ghost use Rattle.telnet.specs.Read.{after_iac, after_sb, after_verb};
ghost use Rattle.telnet_reader.specs.Internal.Lead.{lead_in};
ghost use Rattle.telnet_reader.specs.Promise.{answered, look_at, read_at};
ghost use Rattle.octets.specs.Lent.{outcome};

use refusal::Refusal;
use telnet::{Kind, Lead, PAYLOAD_LIMIT, SE, Verb};

// An event at a place, with the number of bytes that it carries and the place after it.
#[derive(Clone, Copy)]
pub struct Found {
    pub kind: Kind,
    pub length: usize,
    pub next: usize,
}

// What is at a 255 with the byte after it.
fn command(s: &[u8], at: usize) -> Result<Option<Found>, Refusal>
    requires { at < length s.now }
    ensures { result ≡ answered at (after_iac (drop (at + 1) s.now)) }
{
    let after = at + 1;
    if after == s.len() {
        return Err(Refusal::CutShort);
    }
    let c = s[after];
    match telnet_lead::lead_of(c) {
        Lead::Faulty => Err(Refusal::BadCommand),
        Lead::Opens => subnegotiation(s, at),
        Lead::Negotiates(verb) => negotiation(verb, s, at),
        Lead::Simple => Ok(Some(Found {
            kind: Kind::Command(c),
            length: 0,
            next: at + 2,
        })),
    }
}

// An option command: its option byte is raw.
fn negotiation(verb: Verb, s: &[u8], at: usize) -> Result<Option<Found>, Refusal>
    requires { at + 1 < length s.now }
    ensures { result ≡ answered at (after_verb verb (drop (at + 2) s.now)) }
{
    let place = at + 2;
    if place == s.len() {
        return Err(Refusal::CutShort);
    }
    Ok(Some(Found {
        kind: Kind::Negotiation(verb, s[place]),
        length: 0,
        next: at + 3,
    }))
}

// A subnegotiation: an option byte, which is raw, the payload, and 255 240.
fn subnegotiation(s: &[u8], at: usize) -> Result<Option<Found>, Refusal>
    requires { at + 1 < length s.now }
    ensures { result ≡ answered at (after_sb (drop (at + 2) s.now)) }
{
    let place = at + 2;
    if place == s.len() {
        return Err(Refusal::CutShort);
    }
    let option = s[place];
    let payload = telnet_data::measure(s, at + 3);
    let count = payload.count;
    let end = payload.end;
    if PAYLOAD_LIMIT < count {
        return Err(Refusal::PayloadTooLong);
    }
    if s.len() - end < 2 {
        return Err(Refusal::CutShort);
    }
    if s[end + 1] != SE {
        return Err(Refusal::Undoubled);
    }
    Ok(Some(Found {
        kind: Kind::Subnegotiation(option),
        length: count,
        next: end + 2,
    }))
}

// The event at a place: its kind, how many bytes it carries, and the place after it. Nothing is copied.
pub fn look(s: &[u8], at: usize) -> Result<Option<Found>, Refusal>
    ensures { result ≡ look_at s.now at }
{
    if s.len() < at {
        return Err(Refusal::PastTheEnd);
    }
    let run = telnet_data::measure(s, at);
    let count = run.count;
    if 0 < count {
        return Ok(Some(Found {
            kind: Kind::Data,
            length: count,
            next: run.end,
        }));
    }
    if at == s.len() {
        return Ok(None);
    }
    command(s, at)
}

// Where the bytes that an event at a place carries begin.
fn data_place(kind: Kind, at: usize) -> usize
    requires { at + 3 < 2 ^ 64 }
    ensures { result ≡ at + lead_in kind }
{
    match kind {
        Kind::Subnegotiation(_) => at + 3,
        _ => at,
    }
}

// The event at a place, looked at first, and then the bytes that it carries copied to the front of the buffer.
fn deliver(s: &[u8], at: usize, out: &mut [u8]) -> Result<Option<Found>, Refusal>
    ensures { outcome result out.new ≡ read_at s.now at out.old }
{
    let Some(found) = look(s, at)? else {
        return Ok(None);
    };
    if out.len() < found.length {
        return Err(Refusal::NoRoom);
    }
    telnet_data::copy_run(s, data_place(found.kind, at), out, 0);
    Ok(Some(found))
}

// Whether a buffer of `room` bytes has room for all that is left of a line.
fn holds_rest(s: &[u8], at: usize, room: usize) -> bool
    ensures { result ≡ leb (length s.now - at) room }
{
    s.len().saturating_sub(at) <= room
}

// The event at a place, with the bytes that it carries copied to the front of the buffer. A run is found and copied in
// one pass where there is room for all that is left of the input.
pub fn read(s: &[u8], at: usize, out: &mut [u8]) -> Result<Option<Found>, Refusal>
    ensures { outcome result out.new ≡ read_at s.now at out.old }
{
    if !holds_rest(s, at, out.len()) {
        return deliver(s, at, out);
    }
    let run = telnet_data::copy_run(s, at, out, 0);
    let count = run.count;
    if 0 < count {
        return Ok(Some(Found {
            kind: Kind::Data,
            length: count,
            next: run.end,
        }));
    }
    deliver(s, at, out)
}
