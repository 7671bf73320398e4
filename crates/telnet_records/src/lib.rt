// Reading one record from a place of a line on: the data of all events up to an end-of-record. The caller owns the
// buffer; nothing is kept between calls. What is right is said in the crate `telnet`; what is answered, and left in the
// buffer, in `specs/Promise.antt`.
#![tactic(auto)]

ghost use Rattle.std.specs.Prelude.{◌≡◌, ◌≤◌, length};
ghost use Rattle.telnet_records.specs.Internal.Gather.{data_length, ends_record, sized_at, data_at, CanCopy, Copied, CanPass, Passed};
ghost use Rattle.telnet_records.specs.Promise.{record_at};
ghost use Rattle.octets.specs.Lent.{outcome, overwrite};

use refusal::Refusal;
use telnet::Kind;
use telnet_data::Extent;

// A record, with the number of its bytes and the place after it.
#[derive(Clone, Copy)]
pub struct Record {
    pub length: usize,
    pub next: usize,
}

// How many bytes an event adds to a record.
fn data_length(kind: Kind, length: usize) -> usize
    ensures { result ≡ data_length kind length }
{
    match kind {
        Kind::Data => length,
        _ => 0,
    }
}

// Whether an event is an end-of-record.
fn ends_record(kind: Kind) -> bool
    ensures { result ≡ ends_record kind }
{
    matches!(kind, Kind::Command(telnet::EOR))
}

// The record from a place on: its length and the place after it, or none before the input ends. Nothing is copied.
fn find_record(s: &[u8], at: usize) -> Result<Option<Record>, Refusal>
    requires { at ≤ length s.now }
    ensures { result ≡ sized_at s.now 0 at }
{
    let mut i = at;
    let mut n = 0;
    while let Some(found) = telnet_reader::look(s, i)? {
        if ends_record(found.kind) {
            return Ok(Some(Record {
                length: n,
                next: found.next,
            }));
        }
        n += data_length(found.kind, found.length);
        i = found.next;
    }
    Ok(None)
}

// The place after the event at a place, which adds nothing to a record.
fn pass_event(s: &[u8], at: usize) -> usize
    requires { CanPass s.now at }
    ensures { Passed s.now at result }
{
    match telnet_reader::look(s, at) {
        Ok(Some(found)) => found.next,
        Ok(None) => at,
        Err(_) => at,
    }
}

// Copies what the event at a place adds to a record, after `to` bytes of it. A run is found and copied in one pass.
fn copy_event(s: &[u8], at: usize, out: &mut [u8], to: usize) -> Extent
    requires { CanCopy s.now at out.old to }
    ensures { Copied s.now at out.old to out.new result }
{
    let run = telnet_data::copy_run(s, at, out, to);
    let count = run.count;
    if 0 < count {
        return Extent {
            count: to + count,
            end: run.end,
        };
    }
    Extent {
        count: to,
        end: pass_event(s, at),
    }
}

// Copies the data of the record from a place on, of which there are `total` bytes.
fn copy_record(s: &[u8], at: usize, total: usize, out: &mut [u8])
    requires { (at ≤ length s.now) × (total ≡ length (data_at s.now at)) × (total ≤ length out.old) }
    ensures { out.new ≡ overwrite out.old 0 (data_at s.now at) }
{
    let mut i = at;
    let mut n = 0;
    while n < total {
        let e = copy_event(s, i, out, n);
        i = e.end;
        n = e.count;
    }
}

// The record from a place on, with its data copied to the front of the buffer.
pub fn read_record(s: &[u8], at: usize, out: &mut [u8]) -> Result<Option<Record>, Refusal>
    ensures { outcome result out.new ≡ record_at s.now at out.old }
{
    if s.len() < at {
        return Err(Refusal::PastTheEnd);
    }
    let Some(record) = find_record(s, at)? else {
        return Ok(None);
    };
    if out.len() < record.length {
        return Err(Refusal::NoRoom);
    }
    copy_record(s, at, record.length, out);
    Ok(Some(record))
}
