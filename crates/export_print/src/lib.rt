// Printer frames and the print ledger, for a caller in C. Each function answers with numbers: which number stands for
// what is said at the structs and in `specs/Numbers.antt`. A `refusal` is 0 where there is none; else it is the
// refusal's number, and every other field is 0, but that the ledger is handed back by the numbers that were given. A
// slice is a pointer and a length.
#![tactic(auto)]

ghost use Rattle.std.specs.Prelude.{◌≡◌};
ghost use Rattle.export_print.specs.Numbers.{read_numbers, frame_numbers, ledger_numbers, ledger_named, receipt_number};
ghost use Rattle.export_print.specs.Numbers.{taken_numbers, completed_numbers, LedgerNamed};
ghost use Rattle.export.specs.Numbers.{numbered};
ghost use Rattle.print_frame.specs.Frame.{frame_of};
ghost use Rattle.print_ledger.specs.Ledger.{fresh, take_frame, complete_into};
ghost use Rattle.octets.specs.Lent.{outcome};

use export::mark;
use print_frame::Frame;
use print_ledger::{Completed, Ledger, Receipt, Taken};
use refusal::Refusal;

// What a frame says. `direction` is 1 for outbound, from the server, and 2 for inbound, from the client. `operation` is
// 1 for print or print complete and 2 for clear. The six marks are 1 or 0. Diagnostic bytes and print data are given by
// their places in the frame.
#[repr(C)]
#[derive(Clone, Copy, Default)]
pub struct TvFrame {
    pub refusal: u8,
    pub direction: u8,
    pub operation: u8,
    pub diagnostics_included: u8,
    pub error: u8,
    pub intervention_required: u8,
    pub ready: u8,
    pub first_of_chain: u8,
    pub last_of_chain: u8,
    pub diagnostics_at: usize,
    pub diagnostics_length: usize,
    pub data_at: usize,
    pub data_length: usize,
}

// The ledger: `held` is 1 where a record is held and 0 where none is. Another number reads as 0.
#[repr(C)]
#[derive(Clone, Copy)]
pub struct TvLedger {
    pub held: u8,
}

// The ledger after a frame, and what became of the frame: `receipt` is 1 where its record is held, 2 where a clear
// found a record held, 3 where it found none.
#[repr(C)]
#[derive(Clone, Copy)]
pub struct TvTaken {
    pub ledger: TvLedger,
    pub refusal: u8,
    pub receipt: u8,
}

// The ledger after a completion, and how many bytes were written.
#[repr(C)]
#[derive(Clone, Copy)]
pub struct TvCompleted {
    pub ledger: TvLedger,
    pub refusal: u8,
    pub length: usize,
}

fn read_numbers(frame: Frame) -> TvFrame
    ensures { result ≡ read_numbers frame }
{
    TvFrame {
        refusal: 0,
        direction: frame.direction as u8,
        operation: frame.operation as u8,
        diagnostics_included: mark(frame.diagnostics_included),
        error: mark(frame.flags.error),
        intervention_required: mark(frame.flags.intervention_required),
        ready: mark(frame.flags.ready),
        first_of_chain: mark(frame.flags.first_of_chain),
        last_of_chain: mark(frame.flags.last_of_chain),
        diagnostics_at: frame.diagnostics.place,
        diagnostics_length: frame.diagnostics.length,
        data_at: frame.print_data.place,
        data_length: frame.print_data.length,
    }
}

fn frame_numbers(answer: Result<Frame, Refusal>) -> TvFrame
    ensures { result ≡ frame_numbers answer }
{
    match answer {
        Ok(frame) => read_numbers(frame),
        Err(e) => TvFrame {
            refusal: e.number(),
            ..TvFrame::default()
        },
    }
}

fn ledger_numbers(ledger: Ledger) -> TvLedger
    ensures { result ≡ ledger_numbers ledger }
{
    TvLedger {
        held: mark(ledger.held),
    }
}

#[tactic(auto, unfolding(crate::specs::Numbers::ledger_named))]
fn ledger_named(ledger: TvLedger) -> Ledger
    ensures { result ≡ ledger_named ledger }
{
    Ledger {
        held: ledger.held == 1,
    }
}

fn receipt_number(receipt: Receipt) -> u8
    ensures { result ≡ receipt_number receipt }
{
    match receipt {
        Receipt::Held => 1,
        Receipt::Cleared => 2,
        Receipt::NothingToClear => 3,
    }
}

// What became of a frame; `given` is the ledger that the caller gave.
fn taken_numbers(given: TvLedger, taken: Taken) -> TvTaken
    ensures { result ≡ taken_numbers given taken }
{
    match taken.receipt {
        Ok(receipt) => TvTaken {
            ledger: ledger_numbers(taken.ledger),
            refusal: 0,
            receipt: receipt_number(receipt),
        },
        Err(e) => TvTaken {
            ledger: given,
            refusal: e.number(),
            receipt: 0,
        },
    }
}

fn completed_numbers(given: TvLedger, completed: Completed) -> TvCompleted
    ensures { result ≡ completed_numbers given completed }
{
    match completed.completion {
        Ok(()) => TvCompleted {
            ledger: ledger_numbers(completed.ledger),
            refusal: 0,
            length: 10,
        },
        Err(e) => TvCompleted {
            ledger: given,
            refusal: e.number(),
            length: 0,
        },
    }
}

// Which ledger numbers name.
pub fn ledgers_named()
    ensures { LedgerNamed }
{}

// What a frame says. Refused by 40 to 45.
pub fn tv_read_frame(frame: &[u8]) -> TvFrame
    ensures { result ≡ frame_numbers (frame_of frame.now) }
{
    frame_numbers(print_frame::read_frame(frame))
}

// A ledger that holds nothing.
pub fn tv_ledger_fresh() -> TvLedger
    ensures { result ≡ ledger_numbers fresh }
{
    ledger_numbers(Ledger::fresh())
}

// The ledger is given a frame from the line. A number above 1 reads as 0; a refusal hands the ledger back as it was
// given. Refused by 40 to 45, 52 and 50.
pub fn tv_ledger_take(ledger: TvLedger, frame: &[u8]) -> TvTaken
    ensures { result ≡ taken_numbers ledger (take_frame (ledger_named ledger) frame.now) }
{
    taken_numbers(ledger, ledger_named(ledger).take_frame(frame))
}

// The device has printed what is held: the print complete record goes to the front of `out`, and the ledger is idle. A
// number above 1 reads as 0; a refusal hands the ledger back as it was given. Refused by 51 and 4.
pub fn tv_ledger_complete(ledger: TvLedger, out: &mut [u8]) -> TvCompleted
    ensures { outcome result out.new ≡ numbered (completed_numbers ledger) (complete_into (ledger_named ledger) out.old) }
{
    completed_numbers(ledger, ledger_named(ledger).complete(out))
}
