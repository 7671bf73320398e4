// Environment strings: what a payload's reader answers, and what it leaves in the buffer and the list that it is lent.
#![tactic(auto)]

ghost use Rattle.std.specs.Prelude.{◌≡◌};
ghost use Rattle.env_delivery.specs.Promise.{delivery, hand_over, deliver_read};

use env::RECORD_WIDTH;
use env_search::repeats;
use refusal::Refusal;

// A payload that was read: its first byte, how many variables it has, and how many bytes their names and values take.
#[derive(Clone, Copy)]
pub struct Payload {
    pub first: u8,
    pub count: usize,
    pub used: usize,
}

// Hands over texts and records that were read, where there is room for both. Nothing can be refused after it.
pub fn hand_over(
    first: u8,
    texts: &[u8],
    records: &[usize],
    bytes: &mut [u8],
    numbers: &mut [usize],
) -> Result<Payload, Refusal>
    ensures { delivery result bytes.new numbers.new
        ≡ hand_over first texts.now records.now bytes.old numbers.old }
{
    if bytes.len() < texts.len() {
        return Err(Refusal::NoRoom);
    }
    if numbers.len() < records.len() {
        return Err(Refusal::NoRoom);
    }
    bytes[0..texts.len()].copy_from_slice(texts);
    numbers[0..records.len()].copy_from_slice(records);
    Ok(Payload {
        first,
        count: records.len() / RECORD_WIDTH,
        used: texts.len(),
    })
}

// Hands over texts and records that were read, unless a variable is there twice. A check that comes before 4 has its
// place here.
pub fn deliver(
    first: u8,
    texts: &[u8],
    records: &[usize],
    bytes: &mut [u8],
    numbers: &mut [usize],
) -> Result<Payload, Refusal>
    ensures { delivery result bytes.new numbers.new
        ≡ deliver_read first texts.now records.now bytes.old numbers.old }
{
    if repeats(texts, records) {
        return Err(Refusal::RepeatedVariable);
    }
    hand_over(first, texts, records, bytes, numbers)
}
