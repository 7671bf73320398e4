// Environment strings: reading a payload of NEW-ENVIRON. What is right is said in the crate `env`; what is answered,
// and left in buffer and list, in the crate `env_delivery`. Here its first byte is read; what comes after it is read
// in the crate `env_variables`.
#![tactic(auto)]

ghost use Rattle.std.specs.Prelude.{◌≡◌};
ghost use Rattle.env_delivery.specs.Promise.{delivery, read_into};

use env::PAYLOAD_LIMIT;
use env_codes::is_first;
use env_delivery::Payload;
use env_variables::read_variables;
use refusal::Refusal;

// Reads a payload. Names and values without their ESCs go back to back into the buffer, and their records into the
// list.
pub fn read(payload: &[u8], bytes: &mut [u8], numbers: &mut [usize]) -> Result<Payload, Refusal>
    ensures { delivery result bytes.new numbers.new ≡ read_into payload.now bytes.old numbers.old }
{
    if payload.len() > PAYLOAD_LIMIT {
        return Err(Refusal::PayloadTooLong);
    }
    if payload.len() == 0 {
        return Err(Refusal::NotIsOrInfo);
    }
    let first = payload[0];
    if !is_first(first) {
        return Err(Refusal::NotIsOrInfo);
    }
    read_variables(first, &payload[1..], bytes, numbers)
}
