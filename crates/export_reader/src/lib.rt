// The reader that takes a stream by fragments, for a caller in C. Which number stands for what is said at the structs
// and in `specs/Numbers.antt`. The caller keeps the reader and an array of 1,024 bytes for it, and hands both in with
// each call. A slice is a pointer and a length.
#![tactic(auto)]

ghost use Rattle.std.specs.Prelude.{◌≡◌};
ghost use Rattle.telnet_fragments.specs.Promise.{fresh_reader};
ghost use Rattle.export.specs.Numbers.{verb_named};
ghost use Rattle.export_reader.specs.Numbers.{reader, reader_numbers, choosing_named, fault_named, stage_named, reader_named};
ghost use Rattle.export_reader.specs.Numbers.{event_numbers, fed_numbers, FedByNumbers, ClosedByNumber, ReadersNamed};

use export::KindNumbers;
use refusal::Refusal;
use telnet::{Kind, PAYLOAD_LIMIT};
use telnet_fragments::{Fault, Reader, Stage, Taken};

// The numbers of the faults.
const UNDOUBLED: u8 = Refusal::Undoubled as u8;

const TOO_LONG: u8 = Refusal::PayloadTooLong as u8;

const BAD_COMMAND: u8 = Refusal::BadCommand as u8;

// A reader. `stage` is 0 in data, 1 after a 255, 2 after an option command's code, 3 after 255 250, 4 in a payload, 5
// after a 255 in a payload, and 6 after a fault. `code` is the option command's code at 2, the option byte at 4 and 5,
// the fault's number at 6, else 0. `count` is how many bytes of the array are payload, at 4 and 5, else 0. Numbers that
// name no stage read as stage 0.
#[repr(C)]
#[derive(Clone, Copy)]
pub struct TvReader {
    pub stage: u8,
    pub code: u8,
    pub count: usize,
}

// What a call gives: the reader to go on with; `number`, 0 or 4 or a fault's; the event, by `what`, 0 where there is
// none, 2 for a command, 3 for a negotiation, 4 for a subnegotiation, with its `code` and `option` as an event of
// `tv_look` has them; how many bytes of the fragment were taken; how many bytes of data are at the front of the room;
// and how many payload bytes are right after them.
#[repr(C)]
#[derive(Clone, Copy)]
pub struct TvFed {
    pub reader: TvReader,
    pub number: u8,
    pub what: u8,
    pub code: u8,
    pub option: u8,
    pub taken: usize,
    pub length: usize,
    pub payload: usize,
}

fn with_count(stage: u8, code: u8, count: usize) -> TvReader
    ensures { result ≡ reader stage code count }
{
    TvReader { stage, code, count }
}

impl From<Reader> for TvReader {
    ghost from_gives = { λ r n. n ≡ reader_numbers r };

    fn from(reader: Reader) -> TvReader {
        let count = reader.count;
        match reader.stage {
            Stage::Data => with_count(0, 0, count),
            Stage::IacSeen => with_count(1, 0, count),
            Stage::Choosing(verb) => with_count(2, verb.code(), count),
            Stage::Opening => with_count(3, 0, count),
            Stage::Payload(option) => with_count(4, option, count),
            Stage::Closing(option) => with_count(5, option, count),
            Stage::Failed(fault) => with_count(6, Refusal::from(fault).number(), count),
        }
    }
}

fn choosing_named(code: u8) -> Stage
    ensures { result ≡ choosing_named (verb_named code) }
{
    export::verb_named(code).map_or(Stage::Data, Stage::Choosing)
}

#[tactic(auto, unfolding(crate::specs::Numbers::fault_named))]
fn fault_named(code: u8) -> Stage
    ensures { result ≡ fault_named code }
{
    match code {
        UNDOUBLED => Stage::Failed(Fault::Undoubled),
        TOO_LONG => Stage::Failed(Fault::TooLong),
        BAD_COMMAND => Stage::Failed(Fault::BadCommand),
        _ => Stage::Data,
    }
}

#[tactic(auto, unfolding(crate::specs::Numbers::stage_named))]
fn stage_named(stage: u8, code: u8) -> Stage
    ensures { result ≡ stage_named stage code }
{
    match stage {
        1 => Stage::IacSeen,
        2 => choosing_named(code),
        3 => Stage::Opening,
        4 => Stage::Payload(code),
        5 => Stage::Closing(code),
        6 => fault_named(code),
        _ => Stage::Data,
    }
}

impl From<TvReader> for Reader {
    ghost from_gives = { λ n r. r ≡ reader_named n };

    fn from(reader: TvReader) -> Reader {
        Reader {
            stage: stage_named(reader.stage, reader.code),
            count: reader.count,
        }
    }
}

fn event_numbers(kind: Option<Kind>) -> KindNumbers
    ensures { result ≡ event_numbers kind }
{
    let none = KindNumbers {
        what: 0,
        code: 0,
        option: 0,
    };
    kind.map_or(none, export::kind_numbers)
}

fn fed_numbers(reader: TvReader, fed: Taken) -> TvFed
    ensures { result ≡ fed_numbers reader fed }
{
    let event = event_numbers(fed.kind);
    TvFed {
        reader,
        number: refusal::number_or_0(fed.refusal),
        what: event.what,
        code: event.code,
        option: event.option,
        taken: fed.taken,
        length: fed.length,
        payload: fed.payload,
    }
}

// Which reader numbers name.
#[tactic(auto, using(crate::proofs::Named::named_readers))]
pub fn readers_named()
    ensures { ReadersNamed }
{}

// A reader that has read nothing.
pub fn tv_reader_fresh() -> TvReader
    ensures { result ≡ reader_numbers fresh_reader }
{
    telnet_feed::fresh().into()
}

// A reader begun anew, whatever it was.
pub fn tv_reader_reset(reader: TvReader) -> TvReader
    ensures { result ≡ reader_numbers fresh_reader }
{
    telnet_feed::reset(reader.into()).into()
}

// Takes a fragment. The number 4 is a refusal, for room under 2,048 bytes; 2, 3 and 6 are none: the data before the
// fault is given, and every later call answers that number and takes nothing.
pub fn tv_reader_feed(
    reader: TvReader,
    kept: &mut [u8; PAYLOAD_LIMIT],
    fragment: &[u8],
    room: &mut [u8],
) -> TvFed
    ensures { FedByNumbers reader kept.old fragment.now room.old result kept.new room.new }
{
    let fed = telnet_feed::feed(reader.into(), kept, fragment, room);
    if fed.refusal == Some(Refusal::NoRoom) {
        return fed_numbers(reader, fed);
    }
    fed_numbers(fed.reader.into(), fed)
}

// The end of the stream: 0 where the reader is at rest, 1 where it waits for more, and the number of its fault.
pub fn tv_reader_close(reader: TvReader) -> u8
    ensures { ClosedByNumber reader result }
{
    match telnet_feed::close(reader.into()) {
        Ok(()) => 0,
        Err(e) => e.number(),
    }
}
