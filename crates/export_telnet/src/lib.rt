// The events and records of a line, for a caller in C. Each function answers with numbers: which number stands for what
// is said at the structs and in `specs/Numbers.antt`. A `refusal` is 0 where there is none; else it is the refusal's
// number, and every other field is 0. A slice is a pointer and a length.
#![tactic(auto)]

ghost use Rattle.std.specs.Prelude.{◌≡◌};
ghost use Rattle.export_telnet.specs.Numbers.{no_event, event_numbers, no_record, record_numbers, write_named};
ghost use Rattle.export.specs.Numbers.{kind_named, numbered, written_numbers};
ghost use Rattle.telnet_reader.specs.Promise.{look_at, read_at};
ghost use Rattle.telnet_records.specs.Promise.{record_at};
ghost use Rattle.telnet_writer.specs.Promise.{write_of};
ghost use Rattle.octets.specs.Lent.{outcome};

use export::TvWritten;
use refusal::Refusal;
use telnet_reader::Found;
use telnet_records::Record;

// What is at a place. `what` is 0 where the input ended, 1 for data, 2 for a command, 3 for a negotiation, 4 for a
// subnegotiation. `code` is the command, or 251 to 254 for WILL, WONT, DO and DONT. `option` is the option byte.
// `length` is how many bytes the event carries, `next` the place after it. What an event does not have is 0, and all is
// 0 where the input ended.
#[repr(C)]
#[derive(Clone, Copy)]
pub struct TvEvent {
    pub what: u8,
    pub refusal: u8,
    pub code: u8,
    pub option: u8,
    pub length: usize,
    pub next: usize,
}

// A record. `complete` is 1, with its length and the place after it; or 0, with no refusal where the input ended before
// an end-of-record.
#[repr(C)]
#[derive(Clone, Copy)]
pub struct TvRecord {
    pub complete: u8,
    pub refusal: u8,
    pub length: usize,
    pub next: usize,
}

// No event: the input ended, where the refusal is 0.
fn no_event(refusal: u8) -> TvEvent
    ensures { result ≡ no_event refusal }
{
    TvEvent {
        what: 0,
        refusal,
        code: 0,
        option: 0,
        length: 0,
        next: 0,
    }
}

fn event_numbers(answer: Result<Option<Found>, Refusal>) -> TvEvent
    ensures { result ≡ event_numbers answer }
{
    match answer {
        Ok(None) => no_event(0),
        Ok(Some(found)) => {
            let k = export::kind_numbers(found.kind);
            TvEvent {
                what: k.what,
                refusal: 0,
                code: k.code,
                option: k.option,
                length: found.length,
                next: found.next,
            }
        }
        Err(e) => no_event(e.number()),
    }
}

fn record_numbers(answer: Result<Option<Record>, Refusal>) -> TvRecord
    ensures { result ≡ record_numbers answer }
{
    match answer {
        Ok(Some(record)) => TvRecord {
            complete: 1,
            refusal: 0,
            length: record.length,
            next: record.next,
        },
        Ok(None) => no_record(0),
        Err(e) => no_record(e.number()),
    }
}

// No record: none before the input ended, where the refusal is 0.
fn no_record(refusal: u8) -> TvRecord
    ensures { result ≡ no_record refusal }
{
    TvRecord {
        complete: 0,
        refusal,
        length: 0,
        next: 0,
    }
}

// The event at a place; nothing is copied. Refused by 1, 2, 3, 5 or 6.
pub fn tv_look(s: &[u8], at: usize) -> TvEvent
    ensures { result ≡ event_numbers (look_at s.now at) }
{
    event_numbers(telnet_reader::look(s, at))
}

// The event at a place, with the bytes that it carries copied to the front of the buffer. Refused as `tv_look`, and by
// 4.
pub fn tv_read(s: &[u8], at: usize, out: &mut [u8]) -> TvEvent
    ensures { outcome result out.new ≡ numbered event_numbers (read_at s.now at out.old) }
{
    event_numbers(telnet_reader::read(s, at, out))
}

// The record from a place on, with its data copied to the front of the buffer. Refused as `tv_read`.
pub fn tv_read_record(s: &[u8], at: usize, out: &mut [u8]) -> TvRecord
    ensures { outcome result out.new ≡ numbered record_numbers (record_at s.now at out.old) }
{
    record_numbers(telnet_records::read_record(s, at, out))
}

// Writes the event that `what`, `code` and `option` name, with the numbers of `TvEvent`, to the front of the buffer;
// the bytes that it carries are in `payload`. What the named event does not have is not looked at. Refused by 7, also
// where the numbers name no event, and by 3 and 4.
pub fn tv_write(what: u8, code: u8, option: u8, payload: &[u8], out: &mut [u8]) -> TvWritten
    ensures { outcome result out.new ≡ numbered written_numbers (write_named (kind_named what code option) payload.now out.old) }
{
    let Some(kind) = export::kind_named(what, code, option) else {
        return export::written_numbers(Err(Refusal::NotWritable));
    };
    export::written_numbers(telnet_writer::write(kind, payload, out))
}
