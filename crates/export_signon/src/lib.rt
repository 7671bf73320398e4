// Sign-on verdicts, their reasons and response records, for a caller in C. Each function answers with numbers: which
// number stands for what is said at the structs and in `specs/Numbers.antt`. A `refusal` is 0 where there is none; else
// it is the refusal's number, and every other field is 0. A slice is a pointer and a length.
#![tactic(auto)]

ghost use Rattle.std.specs.Prelude.{◌≡◌};
ghost use Rattle.export_signon.specs.Numbers.{verdict_named, answer_numbers, VerdictNamed};
ghost use Rattle.export_signon.specs.Numbers.{explained_numbers, ReasonNumbered};
ghost use Rattle.export.specs.Numbers.{numbered, written_numbers};
ghost use Rattle.signon.specs.Verdict.{answer_of};
ghost use Rattle.signon.specs.Reason.{explain_of};
ghost use Rattle.startup_record.specs.Promise.{respond_into};
ghost use Rattle.octets.specs.Lent.{outcome};

use export::TvWritten;
use refusal::Refusal;
use signon::{Reason, Verdict};

// A verdict: 1 PANEL, 2 for 0002, 3 for 0003, 4 for 0004, 5 GRANT.
#[repr(C)]
#[derive(Clone, Copy)]
pub struct TvVerdict {
    pub refusal: u8,
    pub verdict: u8,
}

#[tactic(auto, unfolding(crate::specs::Numbers::verdict_named))]
fn verdict_named(number: u8) -> Verdict
    ensures { result ≡ verdict_named number }
{
    match number {
        1 => Verdict::Panel,
        2 => Verdict::NotKnown,
        3 => Verdict::Disabled,
        5 => Verdict::Grant,
        _ => Verdict::Failed,
    }
}

impl From<Result<Verdict, Refusal>> for TvVerdict {
    ghost from_gives = { λ answer numbers. numbers ≡ answer_numbers answer };

    fn from(answer: Result<Verdict, Refusal>) -> TvVerdict {
        match answer {
            Ok(verdict) => TvVerdict {
                refusal: 0,
                verdict: verdict as u8,
            },
            Err(e) => TvVerdict {
                refusal: e.number(),
                verdict: 0,
            },
        }
    }
}

// Which verdict a number names.
pub fn verdicts_named()
    ensures { VerdictNamed }
{}

// The verdict on a payload of NEW-ENVIRON, by the server seed and the profile table. Refused by 35, 30 to 32, 3 and 20
// to 25.
pub fn tv_verdict(server_seed: &[u8], table: &[u8], payload: &[u8]) -> TvVerdict
    ensures { result ≡ answer_numbers (answer_of server_seed.now table.now payload.now) }
{
    signon_verdict::verdict(server_seed, table, payload).into()
}

// A reason: the tens are the number of its verdict.
#[repr(C)]
#[derive(Clone, Copy)]
pub struct TvExplained {
    pub refusal: u8,
    pub reason: u8,
}

impl From<Result<Reason, Refusal>> for TvExplained {
    ghost from_gives = { λ explained numbers. numbers ≡ explained_numbers explained };

    fn from(explained: Result<Reason, Refusal>) -> TvExplained {
        match explained {
            Ok(reason) => TvExplained {
                refusal: 0,
                reason: reason as u8,
            },
            Err(e) => TvExplained {
                refusal: e.number(),
                reason: 0,
            },
        }
    }
}

// Which number a reason has.
pub fn reasons_numbered()
    ensures { ReasonNumbered }
{}

// Why the verdict on a payload is what it is. Refused as `tv_verdict` is.
pub fn tv_explain(server_seed: &[u8], table: &[u8], payload: &[u8]) -> TvExplained
    ensures { result ≡ explained_numbers (explain_of server_seed.now table.now payload.now) }
{
    signon_reason::explain(server_seed, table, payload).into()
}

// Writes the response record to the front of `out`. A number that is no verdict reads as 4, so that no session is said
// to have started. Refused by 36 and 4.
pub fn tv_response(
    device_fault: bool,
    verdict: u8,
    system: &[u8],
    device: &[u8],
    out: &mut [u8],
) -> TvWritten
    ensures { outcome result out.new
        ≡ numbered written_numbers (respond_into device_fault (verdict_named verdict) system.now device.now out.old) }
{
    let given = verdict_named(verdict);
    export::written_numbers(startup_record::response(device_fault, given, system, device, out))
}
