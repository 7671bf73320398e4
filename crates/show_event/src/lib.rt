// Says an event of the line, for a program that shows a session: who sends it, the line that the listing has for it,
// and what it is for. What is said goes to standard output, of which no contract speaks.
#![tactic(auto)]

ghost use Rattle.std.specs.Prelude.{◌≡◌, ◌/◌, length};
ghost use Rattle.octets.specs.Lent.{outcome};
ghost use Rattle.telnet.specs.Event.{event};
ghost use Rattle.telnet_reader.specs.Promise.{look_at};
ghost use Rattle.show_event.specs.Sent.{next_place, sent_at, sent_all, record_events};

use refusal::Refusal;
use telnet::Kind;
use telnet_reader::Found;

// The two ends of a session.
#[derive(Clone, Copy)]
pub enum Sender {
    Host,
    Printer,
}

fn say(words: &[u8]) {
    io::write_all(1, words);
}

fn say_sender(sender: Sender) {
    match sender {
        Sender::Host => say(b"\nhost "),
        Sender::Printer => say(b"\nprinter "),
    }
}

// The name of an option: of those that are carried, and of TIMING-MARK.
fn say_option(option: u8) {
    match option {
        0 => say(b" BINARY"),
        3 => say(b" SUPPRESS-GO-AHEAD"),
        6 => say(b" TIMING-MARK"),
        24 => say(b" TERMINAL-TYPE"),
        25 => say(b" END-OF-RECORD"),
        39 => say(b" NEW-ENVIRON"),
        _ => {}
    }
}

// What an event is for.
fn say_purpose(kind: Kind) {
    match kind {
        Kind::Data => say(b" a run of a record"),
        Kind::Command(_) => say(b" its end"),
        Kind::Negotiation(_, option) => say_option(option),
        Kind::Subnegotiation(option) => say_option(option),
    }
}

// The listing's line for what is at a place, without the end of the line.
fn say_line(at: usize, answer: Result<Option<Found>, Refusal>) {
    let text = telnet_line::line_text(at, answer).bytes;
    let end = octets_find::find_byte(&text, 0, b'\n');
    say(octets_part::part(&text, 0, end));
}

// The place after what is at a place.
fn after(at: usize, answer: Result<Option<Found>, Refusal>) -> usize
    ensures { result ≡ next_place at answer }
{
    match answer {
        Ok(Some(found)) => found.next,
        Ok(None) => at,
        Err(_) => at,
    }
}

// Begins a line with who sends, and the event at a place of the line; the answer is the place after it.
pub fn say_event(sender: Sender, line: &[u8], at: usize) -> usize
    ensures { result ≡ next_place at (look_at line.now at) }
{
    let answer = telnet_reader::look(line, at);
    say_sender(sender);
    say_line(at, answer);
    if let Ok(Some(found)) = answer {
        say_purpose(found.kind);
    }
    after(at, answer)
}

// Writes an event at a place of the line; the answer is the place after it. Where it is refused, or the place is after
// the end, nothing is written.
fn put_event(kind: Kind, payload: &[u8], line: &mut [u8], at: usize) -> usize
    ensures { outcome result line.new ≡ sent_at (event kind payload.now) line.old at }
{
    let n = line.len();
    if n < at {
        return at;
    }
    match telnet_writer::write(kind, payload, &mut line[at..n]) {
        Ok(k) => return at + k,
        Err(_) => return at,
    }
}

// Sends an event, after what was sent before it, and says it; the answer is the place after it.
pub fn send_event(sender: Sender, kind: Kind, payload: &[u8], line: &mut [u8], at: usize) -> usize
    ensures { outcome result line.new ≡ sent_at (event kind payload.now) line.old at }
{
    let end = put_event(kind, payload, line, at);
    say_event(sender, octets_part::part(line, 0, end), at);
    end
}

// Sends a record, as a run and an end-of-record, and says both.
pub fn send_record(sender: Sender, bytes: &[u8], line: &mut [u8], at: usize) -> usize
    ensures { outcome result line.new ≡ sent_all (record_events bytes.now) line.old at }
{
    let run = send_event(sender, Kind::Data, bytes, line, at);
    send_event(sender, Kind::Command(telnet::EOR), b"", line, run)
}

// Says the option commands of a line that has no other events; they have three bytes each. The answer is how many.
pub fn say_commands(sender: Sender, line: &[u8]) -> usize
    ensures { result ≡ length line.now / 3 }
{
    let count = line.len() / 3;
    for i in 0..count {
        say_event(sender, line, 3 * i);
    }
    count
}
