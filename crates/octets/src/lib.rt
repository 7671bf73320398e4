// Helpers on bytes that several layers share. Each is total and says all of what it leaves.
#![tactic(auto)]

ghost use Rattle.std.specs.Prelude.{◌≡◌, ◌+◌, ◌%◌, ◌≤◌, ltb, length};
ghost use Rattle.octets.specs.Decimal.{decimal};
ghost use Rattle.octets.specs.Lent.{outcome, overwrite};
ghost use Rattle.octets.specs.Promise.{put_at};
ghost use Rattle.octets.specs.Same.{same};

// Whether `count` bytes at `at` reach past `length`. The sum of the two might wrap, so it is not made.
pub fn no_room(count: usize, at: usize, length: usize) -> bool
    ensures { result ≡ ltb length (at + count) }
{
    if length < at {
        return true;
    }
    length - at < count
}

// Puts `bytes` at a place of the buffer; where they do not fit, writes nothing and answers false.
pub fn put(bytes: &[u8], buffer: &mut [u8], at: usize) -> bool
    ensures { outcome result buffer.new ≡ put_at bytes.now buffer.old at }
{
    if no_room(bytes.len(), at, buffer.len()) {
        return false;
    }
    for i in 0..bytes.len() {
        buffer[at + i] = bytes[i];
    }
    true
}

// How many bytes the decimal numeral of `n` has.
pub fn decimal_length(n: u64) -> usize
    ensures { result ≡ length (decimal n) }
{
    let mut left = n;
    let mut count = 1;
    while left >= 10 {
        left = left / 10;
        count += 1;
    }
    count
}

// The ASCII code of the last digit of `n`.
fn last_digit(n: u64) -> u8
    ensures { result ≡ 48 + n % 10 }
{
    48 + (n % 10) as u8
}

// Writes the digits of `n`, of which there are `count`, from the last to the first.
fn put_digits(n: u64, count: usize, buffer: &mut [u8], at: usize)
    requires { (count ≡ length (decimal n)) × (at + count ≤ length buffer.old) }
    ensures { buffer.new ≡ overwrite buffer.old at (decimal n) }
{
    let mut rest = n;
    let mut end = at + count;
    while rest >= 10 {
        end -= 1;
        buffer[end] = last_digit(rest);
        rest = rest / 10;
    }
    buffer[at] = last_digit(rest);
}

// Puts the decimal numeral of `n` at a place of the buffer; where it does not fit, writes nothing and answers false.
pub fn put_decimal(n: u64, buffer: &mut [u8], at: usize) -> bool
    ensures { outcome result buffer.new ≡ put_at (decimal n) buffer.old at }
{
    let count = decimal_length(n);
    if no_room(count, at, buffer.len()) {
        return false;
    }
    put_digits(n, count, buffer, at);
    true
}

// Whether two lists of bytes are equal. Every byte is looked at whatever was found before it, so that the time tells
// nothing of where they differ; the lengths are no secret.
pub fn same(a: &[u8], b: &[u8]) -> bool
    ensures { result ≡ same a.now b.now }
{
    if a.len() != b.len() {
        return false;
    }
    let mut differences: u8 = 0;
    for (x, y) in a.iter().zip(b) {
        differences |= x ^ y;
    }
    differences == 0
}
