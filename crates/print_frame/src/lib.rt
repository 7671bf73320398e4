// Printer pass-through frames (RFC 4777, section 11). What is right is said in `specs/Frame.antt`.
#![tactic(auto)]

ghost use Rattle.std.specs.Prelude.{◌≡◌, ◌+◌, ◌≤◌, ◌<◌, length};
ghost use Rattle.print_frame.specs.Frame.{number_at, data_flow, direction_of, direction_from, flags_of, is_reserved, operation_from};
ghost use Rattle.print_frame.specs.Frame.{structure_length, header_of, frame_of};

use refusal::Refusal;

// Who sends a frame: the server (outbound) or the client (inbound). The numbers are the low byte of the data flow.
#[derive(Clone, Copy)]
pub enum Direction {
    Outbound = 0x01,
    Inbound = 0x02,
}

// What a frame asks of the printer, by its code. From the client, a print is the print complete.
#[derive(Clone, Copy)]
pub enum Operation {
    Print = 0x01,
    Clear = 0x02,
}

// The flags of a frame that are not reserved.
#[derive(Clone, Copy)]
pub struct Flags {
    pub error: bool,
    pub intervention_required: bool,
    pub ready: bool,
    pub first_of_chain: bool,
    pub last_of_chain: bool,
}

// Some bytes of a frame.
#[derive(Clone, Copy)]
pub struct Part {
    pub place: usize,
    pub length: usize,
}

// What a frame says.
#[derive(Clone, Copy)]
pub struct Frame {
    pub direction: Direction,
    pub diagnostics_included: bool,
    pub flags: Flags,
    pub operation: Operation,
    pub diagnostics: Part,
    pub print_data: Part,
}

// The masks of the first flag byte, and of the first byte of the data flow.
const ERROR: u8 = 0x80;

const INTERVENTION_REQUIRED: u8 = 0x40;

const READY: u8 = 0x20;

const FIRST_OF_CHAIN: u8 = 0x10;

const LAST_OF_CHAIN: u8 = 0x08;

const RESERVED: u8 = 0x07;

const DIAGNOSTICS_INCLUDED: u8 = 0x10;

// The number in two bytes at a place, the high byte first.
fn number_at(frame: &[u8], at: usize) -> u16
    requires { at + 1 < length frame.now }
    ensures { result ≡ number_at frame.now at }
{
    u16::from_be_bytes([frame[at], frame[at + 1]])
}

impl TryFrom<u16> for Direction {
    type Error = Refusal;

    ghost try_from_gives = { λ flow r. r ≡ direction_from flow };

    // The direction of a printer record's data flow.
    #[tactic(auto, unfolding(crate::specs::Frame::goes, crate::specs::Frame::is_flow, crate::specs::Frame::direction_of))]
    fn try_from(flow: u16) -> Result<Direction, Refusal> {
        match flow {
            0x0101 | 0x1101 => Ok(Direction::Outbound),
            0x0102 | 0x1102 => Ok(Direction::Inbound),
            _ => Err(Refusal::BadDataFlow),
        }
    }
}

impl TryFrom<u8> for Operation {
    type Error = Refusal;

    ghost try_from_gives = { λ code r. r ≡ operation_from code };

    // The operation of a code.
    #[tactic(auto, unfolding(crate::specs::Frame::is_operation, crate::specs::Frame::operation_of))]
    fn try_from(code: u8) -> Result<Operation, Refusal> {
        match code {
            0x01 => Ok(Operation::Print),
            0x02 => Ok(Operation::Clear),
            _ => Err(Refusal::BadOperation),
        }
    }
}

// The flags in the first flag byte.
fn flags_of(flags: u8) -> Flags
    ensures { result ≡ flags_of flags }
{
    Flags {
        error: flags & ERROR != 0,
        intervention_required: flags & INTERVENTION_REQUIRED != 0,
        ready: flags & READY != 0,
        first_of_chain: flags & FIRST_OF_CHAIN != 0,
        last_of_chain: flags & LAST_OF_CHAIN != 0,
    }
}

// Whether a reserved bit of the two flag bytes is set.
fn is_reserved(first: u8, second: u8) -> bool
    ensures { result ≡ is_reserved first second }
{
    first & RESERVED != 0 || second != 0
}

// The pass-through specific header of a frame whose length is right, or the first of 43 to 45 that applies.
#[tactic(auto, unfolding(crate::specs::Frame::header_of))]
fn read_header(frame: &[u8], direction: Direction) -> Result<Frame, Refusal>
    requires long { 10 ≤ length frame.now }
    requires said { structure_length frame.now ≡ length frame.now }
    requires direction { direction ≡ direction_of (data_flow frame.now) }
    ensures { result ≡ header_of frame.now }
{
    let header = usize::from(frame[6]);
    let data = 6 + header;
    if header < 4 || frame.len() < data {
        return Err(Refusal::BadHeaderLength);
    }
    if is_reserved(frame[7], frame[8]) {
        return Err(Refusal::ReservedFlag);
    }
    let operation = Operation::try_from(frame[9])?;
    Ok(Frame {
        direction,
        diagnostics_included: frame[4] & DIAGNOSTICS_INCLUDED != 0,
        flags: flags_of(frame[7]),
        operation,
        diagnostics: Part {
            place: 10,
            length: header - 4,
        },
        print_data: Part {
            place: data,
            length: frame.len() - data,
        },
    })
}

// The frame, or the first of 40 to 45 that applies. Nothing is copied: diagnostic bytes and data are given by their
// places.
#[tactic(auto, unfolding(crate::specs::Frame::frame_of))]
pub fn read_frame(frame: &[u8]) -> Result<Frame, Refusal>
    ensures { result ≡ frame_of frame.now }
{
    if frame.len() < 10 || usize::from(number_at(frame, 0)) != frame.len() {
        return Err(Refusal::BadFrameLength);
    }
    if number_at(frame, 2) != 0x12A0 {
        return Err(Refusal::BadRecordType);
    }
    let direction = Direction::try_from(number_at(frame, 4))?;
    read_header(frame, direction)
}
