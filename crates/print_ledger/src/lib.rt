// The ledger that holds one print record until the device has printed it. What is right is said in `specs/`:
// `Ledger.antt`, then `History.antt` and `Theorems.antt`.
#![tactic(auto)]

ghost use Rattle.std.specs.Prelude.{◌≡◌};
ghost use Rattle.print_ledger.specs.Ledger.{fresh, after_frame, printed, cleared, taken, take_frame, after_completion, complete_into};
ghost use Rattle.octets.specs.Lent.{outcome};

use print_frame::{Direction, Frame, Operation};
use refusal::Refusal;

// The ledger: whether a print record is held. It does not keep the record's bytes.
#[derive(Clone, Copy)]
pub struct Ledger {
    pub held: bool,
}

// What became of a frame that the ledger took: its record is held, or a clear found a record held or none.
#[derive(Clone, Copy)]
pub enum Receipt {
    Held,
    Cleared,
    NothingToClear,
}

// The ledger after a frame.
#[derive(Clone, Copy)]
pub struct Taken {
    pub ledger: Ledger,
    pub receipt: Result<Receipt, Refusal>,
}

// The ledger after a completion, and whether the print complete record was written.
#[derive(Clone, Copy)]
pub struct Completed {
    pub ledger: Ledger,
    pub completion: Result<(), Refusal>,
}

// The print complete record (RFC 4777, figure 5).
const PRINT_COMPLETE: [u8; 10] = *b"\x00\x0A\x12\xA0\x01\x02\x04\x00\x00\x01";

// A successor, with what became of the frame.
fn after_frame(ledger: Ledger, receipt: Result<Receipt, Refusal>) -> Taken
    ensures { result ≡ after_frame ledger receipt }
{
    Taken { ledger, receipt }
}

// A successor, with whether the record was written.
fn after_completion(ledger: Ledger, completion: Result<(), Refusal>) -> Completed
    ensures { result ≡ after_completion ledger completion }
{
    Completed { ledger, completion }
}

impl Ledger {
    // A ledger that holds nothing.
    pub fn fresh() -> Ledger
        ensures { result ≡ fresh }
    {
        Ledger { held: false }
    }

    // A print: one record is held at a time.
    fn print(self, frame: Frame) -> Taken
        ensures { result ≡ printed self frame }
    {
        if self.held {
            return after_frame(self, Err(Refusal::RecordHeld));
        }
        after_frame(Ledger { held: true }, Ok(Receipt::Held))
    }

    // A clear: nothing is held after it, and nothing is completed.
    fn clear(self, frame: Frame) -> Taken
        ensures { result ≡ cleared self frame }
    {
        if self.held {
            return after_frame(Ledger { held: false }, Ok(Receipt::Cleared));
        }
        after_frame(Ledger { held: false }, Ok(Receipt::NothingToClear))
    }

    // A frame that was read.
    fn take(self, frame: Frame) -> Taken
        ensures { result ≡ taken self frame }
    {
        match frame.direction {
            Direction::Inbound => after_frame(self, Err(Refusal::InboundFrame)),
            Direction::Outbound => match frame.operation {
                Operation::Print => self.print(frame),
                Operation::Clear => self.clear(frame),
            },
        }
    }

    // A frame from the line. A refused one leaves the ledger as it was.
    #[tactic(auto, unfolding(crate::specs::Ledger::take_frame))]
    pub fn take_frame(self, frame: &[u8]) -> Taken
        ensures { result ≡ take_frame self frame.now }
    {
        match print_frame::read_frame(frame) {
            Ok(frame) => self.take(frame),
            Err(e) => after_frame(self, Err(e)),
        }
    }

    // The device has printed what is held: the print complete record goes to the front of the output, and the ledger is
    // idle.
    pub fn complete(self, out: &mut [u8]) -> Completed
        ensures { outcome result out.new ≡ complete_into self out.old }
    {
        if !self.held {
            return after_completion(self, Err(Refusal::NoneHeld));
        }
        if octets::put(&PRINT_COMPLETE, out, 0) {
            return after_completion(Ledger { held: false }, Ok(()));
        }
        after_completion(self, Err(Refusal::NoRoom))
    }
}
