// Writing events as the bytes of a line. What is right is said in the crate `telnet`; what is answered, and left in the
// buffer, in `specs/Promise.antt`.
#![tactic(auto)]

ghost use Rattle.std.specs.Prelude.{◌≡◌};
ghost use Rattle.telnet.specs.Event.{event, run, command, negotiation, subnegotiation};
ghost use Rattle.telnet.specs.Write.{is_simple};
ghost use Rattle.telnet_writer.specs.Promise.{write_of};
ghost use Rattle.octets.specs.Lent.{outcome};

use refusal::Refusal;
use telnet::{EOR, IAC, Kind, PAYLOAD_LIMIT, SB, SE, Verb};

#[tactic(auto, unfolding(telnet::specs::Write::is_simple))]
fn is_simple(c: u8) -> bool
    ensures { result ≡ is_simple c }
{
    matches!(c, EOR | 241..=249)
}

fn write_run(bytes: &[u8], out: &mut [u8]) -> Result<usize, Refusal>
    ensures { outcome result out.new ≡ write_of (run bytes.now) out.old }
{
    if bytes.len() == 0 {
        return Err(Refusal::NotWritable);
    }
    // `put_marked` answers `at` where the text does not fit; a run is not empty, so 0 means nothing else.
    let n = octets_marked::put_marked(bytes, IAC, IAC, IAC, out, 0);
    if n == 0 {
        return Err(Refusal::NoRoom);
    }
    Ok(n)
}

fn write_command(c: u8, out: &mut [u8]) -> Result<usize, Refusal>
    ensures { outcome result out.new ≡ write_of (command c) out.old }
{
    if !is_simple(c) {
        return Err(Refusal::NotWritable);
    }
    if out.len() < 2 {
        return Err(Refusal::NoRoom);
    }
    out[0] = IAC;
    out[1] = c;
    Ok(2)
}

fn write_negotiation(verb: Verb, option: u8, out: &mut [u8]) -> Result<usize, Refusal>
    ensures { outcome result out.new ≡ write_of (negotiation verb option) out.old }
{
    let c = verb.code();
    if out.len() < 3 {
        return Err(Refusal::NoRoom);
    }
    out[0] = IAC;
    out[1] = c;
    out[2] = option;
    Ok(3)
}

fn write_subnegotiation(option: u8, payload: &[u8], out: &mut [u8]) -> Result<usize, Refusal>
    ensures { outcome result out.new ≡ write_of (subnegotiation option payload.now) out.old }
{
    if PAYLOAD_LIMIT < payload.len() {
        return Err(Refusal::PayloadTooLong);
    }
    let end = 3 + octets_marked::marked_length(payload, IAC, IAC);
    if out.len() < end + 2 {
        return Err(Refusal::NoRoom);
    }
    out[0] = IAC;
    out[1] = SB;
    out[2] = option;
    octets_marked::put_marked(payload, IAC, IAC, IAC, out, 3);
    out[end] = IAC;
    out[end + 1] = SE;
    Ok(end + 2)
}

// Writes an event to the front of the buffer; the bytes that it carries are in `payload`. A refusal leaves the buffer
// as it was.
pub fn write(kind: Kind, payload: &[u8], out: &mut [u8]) -> Result<usize, Refusal>
    ensures { outcome result out.new ≡ write_of (event kind payload.now) out.old }
{
    match kind {
        Kind::Data => write_run(payload, out),
        Kind::Command(c) => write_command(c, out),
        Kind::Negotiation(verb, option) => write_negotiation(verb, option, out),
        Kind::Subnegotiation(option) => write_subnegotiation(option, payload, out),
    }
}
