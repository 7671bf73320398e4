// Writes the start-up response record (RFC 4777, section 10). What is right is said in the crate `startup`.
#![tactic(auto)]

ghost use Rattle.std.specs.Prelude.{◌≡◌};
ghost use Rattle.octets.specs.Lent.{outcome, overwrite};
ghost use Rattle.startup.specs.Response.{code_of, fixed_fields};
ghost use Rattle.startup_record.specs.Promise.{respond_into};
ghost use Rattle.startup_record.specs.Internal.Parts.{laid_out, Fits};

use refusal::Refusal;
use signon::Verdict;

// How long a record is.
pub const RECORD_LENGTH: usize = 73;

// The response code, in ASCII: a device fault outranks the verdict.
#[tactic(auto, unfolding(startup::specs::Response::code_of))]
fn code(device_fault: bool, verdict: Verdict) -> [u8; 4]
    ensures { result ≡ code_of device_fault verdict }
{
    if device_fault {
        return *b"8902";
    }
    match verdict {
        Verdict::NotKnown => *b"0002",
        Verdict::Disabled => *b"0003",
        Verdict::Failed => *b"0004",
        Verdict::Panel | Verdict::Grant => *b"I902",
    }
}

// The fixed value fields: those of figure 1 where the session starts, else those of figure 2.
#[tactic(auto, unfolding(startup::specs::Response::fixed_fields))]
fn fixed_fields(code: [u8; 4]) -> [u8; 12]
    ensures { result ≡ fixed_fields code }
{
    if octets::same(&code, b"I902") {
        return [
            0x90, 0x00, 0x05, 0x60, 0x06, 0x00, 0x20, 0xC0, 0x00, 0x3D, 0x00, 0x00,
        ];
    }
    [
        0x90, 0x00, 0x05, 0x60, 0x06, 0x00, 0x82, 0x00, 0x00, 0x3D, 0x00, 0x00,
    ]
}

// Puts the fields one after the other to the front of the buffer.
fn put_fields(code: [u8; 4], system: &[u8], device: &[u8], out: &mut [u8])
    requires { Fits code system.now device.now out.old }
    ensures { out.new ≡ overwrite out.old 0 (laid_out code system.now device.now) }
{
    octets::put(&[0x00, 0x49, 0x12, 0xA0], out, 0);
    octets::put(&fixed_fields(code), out, 4);
    names_ebcdic::put_ebcdic(&code, 4, out, 16);
    names_ebcdic::put_ebcdic(system, 8, out, 20);
    names_ebcdic::put_ebcdic(device, 10, out, 28);
    octets::put(&[0u8; 35], out, 38);
}

// Writes the record to the front of `out`. 36 for a bad device or system name, 4 where `out` is too short; a refusal
// leaves `out` as it was.
pub fn response(
    device_fault: bool,
    verdict: Verdict,
    system: &[u8],
    device: &[u8],
    out: &mut [u8],
) -> Result<usize, Refusal>
    ensures { outcome result out.new ≡ respond_into device_fault verdict system.now device.now out.old }
{
    if !names::is_name(device, names::DEVICE_LIMIT) {
        return Err(Refusal::BadDeviceOrSystemName);
    }
    if !names::is_name(system, names::SYSTEM_LIMIT) {
        return Err(Refusal::BadDeviceOrSystemName);
    }
    if out.len() < RECORD_LENGTH {
        return Err(Refusal::NoRoom);
    }
    put_fields(code(device_fault, verdict), system, device, out);
    Ok(RECORD_LENGTH)
}
