// Why a sign-on is answered as it is: of this session's server seed, the profile table and the payload of NEW-ENVIRON
// that the client sent. What is right is said in the crate `signon`, in `specs/Reason.antt`. One call reads the payload
// into 1,024 bytes and 384 numbers on the stack and takes one pass over the table.
#![tactic(auto)]

ghost use Rattle.std.specs.Prelude.{◌≡◌, List, ℕ};
ghost use Rattle.env.specs.Numbers.{variables_held};
ghost use Rattle.env.specs.Read.{says, not_read};
ghost use Rattle.profile.specs.Table.{table_of};
ghost use Rattle.signon.specs.Reason.{explain_by, explain_of};

use env::{LIST_LIMIT, PAYLOAD_LIMIT, RECORD_WIDTH};
use password_check::SEED_LENGTH;
use refusal::Refusal;
use signon::Reason;

// The reason for a payload that was read: its variables are those of the records.
fn decide(
    server_seed: &[u8],
    table: &[u8],
    bytes: &[u8],
    numbers: &[usize],
) -> Result<Reason, Refusal>
    ensures { result ≡ explain_by server_seed.now (table_of table.now) (says 0 (variables_held bytes.now numbers.now)) }
{
    let entry = profile_table::find(table, signon_attempt::user_of(bytes, numbers))?;
    if let Some(reason) = signon_attempt::without_profile(bytes, numbers) {
        return Ok(reason);
    }
    match entry {
        Some(e) => Ok(signon_attempt::with_profile(server_seed, table, e.at, bytes, numbers)),
        None => Ok(Reason::NotInTheTable),
    }
}

// What a payload that is refused comes to: a fault of the table comes first.
fn refuse(table: &[u8], refusal: Refusal) -> Result<Reason, Refusal>
    ensures { (seed : List ℕ) → result ≡ explain_by seed (table_of table.now) (not_read refusal) }
{
    profile_table::check(table)?;
    Err(refusal)
}

// The reason, or a refusal: 35; 30, 31, 32; 3; 20 to 25.
pub fn explain(server_seed: &[u8], table: &[u8], payload: &[u8]) -> Result<Reason, Refusal>
    ensures { result ≡ explain_of server_seed.now table.now payload.now }
{
    if server_seed.len() != SEED_LENGTH {
        return Err(Refusal::BadServerSeed);
    }
    let mut bytes = [0u8; PAYLOAD_LIMIT];
    let mut numbers = [0usize; LIST_LIMIT];
    match env_reader::read(payload, &mut bytes, &mut numbers) {
        Ok(read) => {
            let variables = &numbers[0..RECORD_WIDTH * read.count];
            decide(server_seed, table, &bytes[0..read.used], variables)
        }
        Err(refusal) => refuse(table, refusal),
    }
}
