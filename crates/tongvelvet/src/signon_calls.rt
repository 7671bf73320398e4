// The calls of `export_signon`, for a caller in C: each is the function of that name there, with its promise.
ghost use Rattle.std.specs.Prelude.{◌≡◌};
ghost use Rattle.export_signon.specs.Numbers.{verdict_named, answer_numbers};
ghost use Rattle.export_signon.specs.Numbers.{explained_numbers};
ghost use Rattle.export.specs.Numbers.{numbered, written_numbers};
ghost use Rattle.signon.specs.Verdict.{answer_of};
ghost use Rattle.signon.specs.Reason.{explain_of};
ghost use Rattle.startup_record.specs.Promise.{respond_into};
ghost use Rattle.octets.specs.Lent.{outcome};

use export::TvWritten;
use export_signon::{TvExplained, TvVerdict};

// The verdict on a payload of NEW-ENVIRON, by the server seed and the profile table. Refused by 35, 30 to 32, 3 and 20
// to 25.
#[unsafe(no_mangle)]
pub extern "C" fn tv_verdict(server_seed: &[u8], table: &[u8], payload: &[u8]) -> TvVerdict
    ensures { result ≡ answer_numbers (answer_of server_seed.now table.now payload.now) }
{
    export_signon::tv_verdict(server_seed, table, payload)
}

// Why the verdict on a payload is what it is. Refused as `tv_verdict` is.
#[unsafe(no_mangle)]
pub extern "C" fn tv_explain(server_seed: &[u8], table: &[u8], payload: &[u8]) -> TvExplained
    ensures { result ≡ explained_numbers (explain_of server_seed.now table.now payload.now) }
{
    export_signon::tv_explain(server_seed, table, payload)
}

// Writes the response record to the front of `out`. A number that is no verdict reads as 4, so that no session is said
// to have started. Refused by 36 and 4.
#[unsafe(no_mangle)]
pub extern "C" fn tv_response(
    device_fault: bool,
    verdict: u8,
    system: &[u8],
    device: &[u8],
    out: &mut [u8],
) -> TvWritten
    ensures { outcome result out.new
        ≡ numbered written_numbers (respond_into device_fault (verdict_named verdict) system.now device.now out.old) }
{
    export_signon::tv_response(device_fault, verdict, system, device, out)
}
