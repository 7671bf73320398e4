// A line's stream taken as it is delivered, by fragments: what one call gives, and what holds of every list of calls.
// This crate has what is right, and of code only which refusal a fault is: start with `specs/Call.antt`, then
// `specs/Promise.antt` and `specs/Theorems.antt`. The code is in `telnet_feed`, over `telnet_pass` and `telnet_stage`.
#![tactic(auto)]

ghost use Rattle.std.specs.Prelude.{◌≡◌};
ghost use Rattle.telnet_fragments.specs.Promise.{fault_refusal};

use refusal::Refusal;
use telnet::{Kind, Verb};

// The most bytes of a fragment that a call takes, and the room that it is lent at least.
pub const CALL_LIMIT: usize = 1024;

pub const ROOM: usize = 2048;

// What a stream may fail by: 2, 3 and 6.
#[derive(Clone, Copy)]
pub enum Fault {
    Undoubled,
    TooLong,
    BadCommand,
}

impl From<Fault> for Refusal {
    ghost from_gives = { λ f e. e ≡ fault_refusal f };

    fn from(fault: Fault) -> Refusal {
        match fault {
            Fault::Undoubled => Refusal::Undoubled,
            Fault::TooLong => Refusal::PayloadTooLong,
            Fault::BadCommand => Refusal::BadCommand,
        }
    }
}

// Where a reader is between two bytes.
#[derive(Clone, Copy)]
pub enum Stage {
    Data,
    IacSeen,
    Choosing(Verb),
    Opening,
    Payload(u8),
    Closing(u8),
    Failed(Fault),
}

// A reader: where it is, and in a subnegotiation how many payload bytes are kept for it.
#[derive(Clone, Copy)]
pub struct Reader {
    pub stage: Stage,
    pub count: usize,
}

// What a call gives: the reader to go on with; the refusal, if any; how many bytes of the fragment it took; how many
// bytes of data are at the front of the room; the event, if any; and how many payload bytes are right after the data.
#[derive(Clone, Copy)]
pub struct Taken {
    pub reader: Reader,
    pub refusal: Option<Refusal>,
    pub taken: usize,
    pub length: usize,
    pub kind: Option<Kind>,
    pub payload: usize,
}
