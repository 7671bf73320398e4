// The calls of `export_print`, for a caller in C: each is the function of that name there, with its promise.
ghost use Rattle.std.specs.Prelude.{◌≡◌};
ghost use Rattle.export_print.specs.Numbers.{frame_numbers, ledger_numbers, ledger_named};
ghost use Rattle.export_print.specs.Numbers.{taken_numbers, completed_numbers};
ghost use Rattle.export.specs.Numbers.{numbered};
ghost use Rattle.print_frame.specs.Frame.{frame_of};
ghost use Rattle.print_ledger.specs.Ledger.{fresh, take_frame, complete_into};
ghost use Rattle.octets.specs.Lent.{outcome};

use export_print::{TvCompleted, TvFrame, TvLedger, TvTaken};

// What a frame says. Refused by 40 to 45.
#[unsafe(no_mangle)]
pub extern "C" fn tv_read_frame(frame: &[u8]) -> TvFrame
    ensures { result ≡ frame_numbers (frame_of frame.now) }
{
    export_print::tv_read_frame(frame)
}

// A ledger that holds nothing.
#[unsafe(no_mangle)]
pub extern "C" fn tv_ledger_fresh() -> TvLedger
    ensures { result ≡ ledger_numbers fresh }
{
    export_print::tv_ledger_fresh()
}

// The ledger is given a frame from the line. A number above 1 reads as 0; a refusal hands the ledger back as it was
// given. Refused by 40 to 45, 52 and 50.
#[unsafe(no_mangle)]
pub extern "C" fn tv_ledger_take(ledger: TvLedger, frame: &[u8]) -> TvTaken
    ensures { result ≡ taken_numbers ledger (take_frame (ledger_named ledger) frame.now) }
{
    export_print::tv_ledger_take(ledger, frame)
}

// The device has printed what is held: the print complete record goes to the front of `out`, and the ledger is idle. A
// number above 1 reads as 0; a refusal hands the ledger back as it was given. Refused by 51 and 4.
#[unsafe(no_mangle)]
pub extern "C" fn tv_ledger_complete(ledger: TvLedger, out: &mut [u8]) -> TvCompleted
    ensures { outcome result out.new ≡ numbered (completed_numbers ledger) (complete_into (ledger_named ledger) out.old) }
{
    export_print::tv_ledger_complete(ledger, out)
}
