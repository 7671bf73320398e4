// Telnet: the events and records of a line. This crate has what is right, and the types: start with
// `specs/Event.antt`, `specs/Write.antt` and `specs/Read.antt`. The code is in `telnet_data`, `telnet_lead`,
// `telnet_reader`, `telnet_records`, `telnet_writer`, `telnet_line` and `telnet_listing`; a stream that comes in
// fragments is in `telnet_fragments` and `telnet_feed`.

// The codes of a line (RFC 854 and 855; EOR, RFC 885), and the most bytes of a payload.
#![tactic(auto)]

ghost use Rattle.std.specs.Prelude.{◌≡◌};
ghost use Rattle.telnet.specs.Event.{code};

pub const EOR: u8 = 239;

pub const SE: u8 = 240;

pub const SB: u8 = 250;

pub const WILL: u8 = 251;

pub const WONT: u8 = 252;

pub const DO: u8 = 253;

pub const DONT: u8 = 254;

pub const IAC: u8 = 255;

pub const PAYLOAD_LIMIT: usize = 1024;

// The option commands, by their codes.
#[derive(Clone, Copy)]
pub enum Verb {
    Will = 251,
    Wont = 252,
    Do = 253,
    Dont = 254,
}

impl Verb {
    // The byte that stands for it on a line.
    pub fn code(self) -> u8
        ensures { result ≡ code self }
    {
        self as u8
    }
}

// What a byte after a 255 begins: nothing that Telnet has, a subnegotiation, an option command, or a simple command
// that it is itself.
#[derive(Clone, Copy)]
pub enum Lead {
    Faulty,
    Opens,
    Negotiates(Verb),
    Simple,
}

// An event without the bytes that it carries, which are in a buffer of their own.
#[derive(Clone, Copy)]
pub enum Kind {
    Data,
    Command(u8),
    Negotiation(Verb, u8),
    Subnegotiation(u8),
}
