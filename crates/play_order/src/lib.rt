// The last part of a printer session: a print record in two runs with an option command between, the ledger, and print
// complete back. What passes the lines is said in `specs/Order.antt`. What is said of it goes to standard output, of
// which no contract speaks.
#![tactic(auto)]

ghost use Rattle.std.specs.Prelude.{◌≡◌};
ghost use Rattle.octets.specs.Lent.{outcome};
ghost use Rattle.show_event.specs.Sent.{sent_all};
ghost use Rattle.play_order.specs.Order.{ordered, ledger_by, replied, completed, length_of, Played};

use option_sides::Sides;
use print_frame::{Direction, Frame};
use print_ledger::{Ledger, Receipt};
use refusal::Refusal;
use show_event::Sender;
use telnet::{Kind, Verb};
use telnet_records::Record;

fn say(words: &[u8]) {
    io::write_all(1, words);
}

// The host sends the order: the first run is a print frame, the last of its chain, whose length says that more is to
// come; DO TIMING-MARK, which no one here carries; and the second run, in which a byte 255 is data. The answer is the
// place of the option command.
fn print(down: &mut [u8], at: usize) -> usize
    ensures { outcome result down.new ≡ ordered down.old at }
{
    let between = show_event::send_event(
        Sender::Host,
        Kind::Data,
        b"\x00\x1E\x12\xA0\x01\x01\x04\x18\x00\x01STEP DOWN",
        down,
        at,
    );
    let next = show_event::send_event(
        Sender::Host,
        Kind::Negotiation(Verb::Do, 6),
        b"",
        down,
        between,
    );
    show_event::send_record(Sender::Host, b" 40 MW\xFF\x0D\x0A\x0C\x00", down, next);
    between
}

fn say_receipt(receipt: Result<Receipt, Refusal>) {
    match receipt {
        Ok(Receipt::Held) => say(b": held"),
        Ok(Receipt::Cleared) => say(b": cleared"),
        Ok(Receipt::NothingToClear) => say(b": nothing to clear"),
        Err(_) => say(b": refused"),
    }
}

// How long a record is, where one was read.
fn length_of(answer: Result<Option<Record>, Refusal>) -> usize
    ensures { result ≡ length_of answer }
{
    match answer {
        Ok(Some(record)) => record.length,
        _ => 0,
    }
}

// The printer takes the record at a place into a fresh ledger.
#[tactic(auto, unfolding(crate::specs::Order::ledger_by))]
fn take(down: &[u8], at: usize) -> Ledger
    ensures { result ≡ ledger_by down.now at }
{
    let mut frame = [0u8; 512];
    let n = length_of(telnet_records::read_record(down, at, &mut frame));
    let taken = Ledger::fresh().take_frame(octets_part::part(&frame, 0, n));
    say_receipt(taken.receipt);
    taken.ledger
}

// The printer answers the option command at a place. An option that is not carried has no side: fresh sides answer it
// as any others would. The answer is the place after what it sends.
#[tactic(auto, unfolding(crate::specs::Order::replied))]
fn reply(down: &[u8], from: usize, up: &mut [u8], at: usize) -> usize
    ensures { outcome result up.new ≡ replied down.now from up.old at }
{
    let answered = option_line::hear(Sides::fresh(), down, from, true, up, at);
    show_event::say_event(Sender::Printer, up, at);
    answered.place
}

fn say_direction(direction: Direction) {
    match direction {
        Direction::Outbound => say(b": a print record"),
        Direction::Inbound => say(b": print complete"),
    }
}

fn say_frame(answer: Result<Frame, Refusal>) {
    match answer {
        Ok(frame) => say_direction(frame.direction),
        Err(_) => say(b": refused"),
    }
}

// The host reads the record at a place.
fn hear(up: &[u8], at: usize) {
    let mut frame = [0u8; 16];
    let n = length_of(telnet_records::read_record(up, at, &mut frame));
    say_frame(print_frame::read_frame(octets_part::part(&frame, 0, n)));
}

// The device has printed: print complete goes to the host, if a record is held. The answer is the place after it.
fn complete(ledger: Ledger, up: &mut [u8], at: usize) -> usize
    ensures { outcome result up.new ≡ sent_all (completed ledger) up.old at }
{
    let mut bytes = [0u8; 10];
    if ledger.complete(&mut bytes).completion.is_err() {
        return at;
    }
    let end = show_event::send_record(Sender::Printer, &bytes, up, at);
    hear(octets_part::part(up, 0, end), at);
    end
}

// The order is sent, taken, and heard back, on both lines from a place of each on. The answer is the place after what
// the printer sends.
pub fn play(down: &mut [u8], down_at: usize, up: &mut [u8], up_at: usize) -> usize
    ensures { Played down.old down_at up.old up_at result down.new up.new }
{
    let between = print(down, down_at);
    let ledger = take(down, down_at);
    let replied = reply(down, between, up, up_at);
    complete(ledger, up, replied)
}
