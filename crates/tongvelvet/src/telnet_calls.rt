// The calls of `export_telnet`, for a caller in C: each is the function of that name there, with its promise.
ghost use Rattle.std.specs.Prelude.{◌≡◌};
ghost use Rattle.export_telnet.specs.Numbers.{event_numbers, record_numbers, write_named};
ghost use Rattle.export.specs.Numbers.{kind_named, numbered, written_numbers};
ghost use Rattle.telnet_reader.specs.Promise.{look_at, read_at};
ghost use Rattle.telnet_records.specs.Promise.{record_at};
ghost use Rattle.octets.specs.Lent.{outcome};

use export::TvWritten;
use export_telnet::{TvEvent, TvRecord};

// The event at a place; nothing is copied. Refused by 1, 2, 3, 5 or 6.
#[unsafe(no_mangle)]
pub extern "C" fn tv_look(s: &[u8], at: usize) -> TvEvent
    ensures { result ≡ event_numbers (look_at s.now at) }
{
    export_telnet::tv_look(s, at)
}

// The event at a place, with the bytes that it carries copied to the front of the buffer. Refused as `tv_look`, and by
// 4.
#[unsafe(no_mangle)]
pub extern "C" fn tv_read(s: &[u8], at: usize, out: &mut [u8]) -> TvEvent
    ensures { outcome result out.new ≡ numbered event_numbers (read_at s.now at out.old) }
{
    export_telnet::tv_read(s, at, out)
}

// The record from a place on, with its data copied to the front of the buffer. Refused as `tv_read`.
#[unsafe(no_mangle)]
pub extern "C" fn tv_read_record(s: &[u8], at: usize, out: &mut [u8]) -> TvRecord
    ensures { outcome result out.new ≡ numbered record_numbers (record_at s.now at out.old) }
{
    export_telnet::tv_read_record(s, at, out)
}

// Writes the event that `what`, `code` and `option` name, with the numbers of `TvEvent`, to the front of the buffer;
// the bytes that it carries are in `payload`. What the named event does not have is not looked at. Refused by 7, also
// where the numbers name no event, and by 3 and 4.
#[unsafe(no_mangle)]
pub extern "C" fn tv_write(
    what: u8,
    code: u8,
    option: u8,
    payload: &[u8],
    out: &mut [u8],
) -> TvWritten
    ensures { outcome result out.new ≡ numbered written_numbers (write_named (kind_named what code option) payload.now out.old) }
{
    export_telnet::tv_write(what, code, option, payload, out)
}
