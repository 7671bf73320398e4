// The reader that takes a stream as the line delivers it, by fragments. It is a small value, handed in and back, and an
// array that the caller lends with it, in which the payload of a subnegotiation is kept until it is whole. What is
// right is said in the crate `telnet_fragments`.
#![tactic(auto)]

ghost use Rattle.std.specs.Prelude.{◌≡◌, ◌+◌, ◌≤◌, None, Some, length};
ghost use Rattle.octets.specs.Lent.{overwrite};
ghost use Rattle.telnet_feed.specs.Internal.Answers.{taken, payload_length};
ghost use Rattle.telnet_fragments.specs.Promise.{fresh_reader, Fed, ClosedAs};

use refusal::Refusal;
use telnet::{Kind, PAYLOAD_LIMIT};
use telnet_fragments::{CALL_LIMIT, ROOM, Reader, Stage, Taken};
use telnet_pass::Run;

// How many bytes an event of a kind carries, if there is one, of so many that are kept.
fn payload_length(kind: Option<Kind>, count: usize) -> usize
    ensures is { result ≡ payload_length kind count }
    ensures most { result ≤ 1024 }
{
    match kind {
        Some(Kind::Data | Kind::Subnegotiation(_)) => count.min(PAYLOAD_LIMIT),
        _ => 0,
    }
}

// Puts a payload at a place where there is room for it. Most calls have none, and need no copy.
fn put_payload(payload: &[u8], room: &mut [u8], at: usize)
    requires { at + length payload.now ≤ length room.old }
    ensures { room.new ≡ overwrite room.old at payload.now }
{
    if payload.len() == 0 {
        return;
    }
    octets::put(payload, room, at);
}

// A call that takes nothing.
fn idle(reader: Reader, refusal: Refusal) -> Taken
    ensures { result ≡ taken reader (Some refusal) 0 0 None 0 }
{
    Taken {
        reader,
        refusal: Some(refusal),
        taken: 0,
        length: 0,
        kind: None,
        payload: 0,
    }
}

// A reader that has read nothing. What its array holds is not looked at.
pub fn fresh() -> Reader
    ensures { result ≡ fresh_reader }
{
    Reader {
        stage: Stage::Data,
        count: 0,
    }
}

// A reader begun anew, whatever it was.
pub fn reset(_reader: Reader) -> Reader
    ensures { result ≡ fresh_reader }
{
    fresh()
}

// Takes a fragment, up to the first command or subnegotiation that is completed, to its end, or 1,024 bytes of it. The
// data before goes to the front of the room, and a payload right after it. Room under 2,048 bytes is 4, before
// anything else. A fault is answered, 2, 3 or 6, now and by every later call; it is no `Err`, since the data before it
// is given too.
pub fn feed(
    reader: Reader,
    kept: &mut [u8; PAYLOAD_LIMIT],
    fragment: &[u8],
    room: &mut [u8],
) -> Taken
    ensures { Fed reader kept.old fragment.now room.old result kept.new room.new }
{
    if room.len() < ROOM {
        return idle(reader, Refusal::NoRoom);
    }
    if let Some(fault) = telnet_stage::fault_of(reader.stage) {
        return idle(reader, fault);
    }
    let end = fragment.len().min(CALL_LIMIT);
    let Run {
        stage,
        count,
        taken,
        length,
        kind,
    } = telnet_pass::pass(reader.stage, reader.count, kept, &fragment[..end], room);
    let payload = payload_length(kind, count);
    put_payload(&kept[..payload], room, length);
    Taken {
        reader: Reader {
            stage,
            count: telnet_stage::held_count(stage, count),
        },
        refusal: telnet_stage::fault_of(stage),
        taken,
        length,
        kind,
        payload,
    }
}

// The end of the stream: end where the reader is at rest, 1 where it is waiting, and the number of its fault. The
// reader is the caller's as it was.
#[tactic(auto, unfolding(telnet_fragments::specs::Promise::close_of, telnet_fragments::specs::Promise::closes, telnet_fragments::specs::Promise::standing, telnet::specs::Whole::stops))]
pub fn close(reader: Reader) -> Result<(), Refusal>
    ensures { ClosedAs reader result }
{
    match reader.stage {
        Stage::Data => Ok(()),
        Stage::Failed(fault) => Err(fault.into()),
        _ => Err(Refusal::CutShort),
    }
}
