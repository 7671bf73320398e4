// What programs do with their input: standard input read to its end, and the part that a two-byte length before it
// announces. What that part is, is said in `specs/Cut.antt`. Of what is read no promise can tell more than how much of
// the buffer it fills.
#![tactic(auto)]

ghost use Rattle.std.specs.Prelude.{◌≡◌, ◌+◌, ◌*◌, ◌++◌, get_or, drop};
ghost use Rattle.io.specs.Counts.{IsPrefixLen};
ghost use Rattle.show_input.specs.Cut.{announced_in, left_after};

use std::io::{Read, Stdin};

// How many bytes were read, and whether a read failed. At the end of the input none are read.
#[derive(Clone, Copy)]
pub struct Input {
    pub count: usize,
    pub failed: bool,
}

fn read_some(mut stdin: Stdin, buffer: &mut [u8]) -> Input
    ensures { IsPrefixLen result.count buffer.new }
{
    match stdin.read(buffer) {
        Ok(count) => Input {
            count,
            failed: false,
        },
        Err(_) => Input {
            count: 0,
            failed: true,
        },
    }
}

// Reads until the buffer is full, the input ends or a read fails. A buffer of one byte more than may come tells that
// there are too many.
pub fn read_all(stdin: Stdin, buffer: &mut [u8]) -> Input
    ensures { IsPrefixLen result.count buffer.new }
{
    let mut n = 0;
    while n < buffer.len() {
        let more = read_some(stdin, &mut buffer[n..]);
        if more.count == 0 {
            return Input {
                count: n,
                failed: more.failed,
            };
        }
        n += more.count;
    }
    Input {
        count: n,
        failed: false,
    }
}

// The bytes from a place on, or none after the end.
fn from_place(bytes: &[u8], at: usize) -> &[u8]
    ensures { result.now ≡ drop at bytes.now }
{
    octets_part::part(bytes, at, bytes.len())
}

// The number of the first two bytes, the higher first. A byte that is not there counts as 0: nothing follows that the
// number could cut.
fn length_of(bytes: &[u8]) -> usize
    ensures { result ≡ get_or bytes.now 0 0 * 256 + get_or bytes.now 1 0 }
{
    let high = octets_part::byte_at(bytes, 0) as usize;
    let low = octets_part::byte_at(bytes, 1) as usize;
    high * 256 + low
}

// The part that the two-byte length at a place announces, cut where the input ends.
pub fn announced(input: &[u8], at: usize) -> &[u8]
    ensures { result.now ≡ announced_in (drop at input.now) }
{
    let rest = from_place(input, at);
    octets_part::part(rest, 2, length_of(rest))
}

// What is left of the input after that part: the two together are all that follows the length.
pub fn left_after(input: &[u8], at: usize) -> &[u8]
    ensures { (result.now ≡ left_after (drop at input.now))
        × (announced_in (drop at input.now) ++ result.now ≡ drop 2 (drop at input.now)) }
{
    let rest = from_place(input, at);
    from_place(from_place(rest, 2), length_of(rest))
}
