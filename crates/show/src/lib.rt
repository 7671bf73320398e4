// Text for programs that show what the libraries do: lines and hexadecimal digits in; bytes, words and numerals out,
// put one after the other into a lent buffer. Each is total, and where something does not fit nothing is written.
#![tactic(auto)]

ghost use Rattle.std.specs.Prelude.{◌≡◌, ◌+◌, ◌≤◌, ◌<◌, length};
ghost use Rattle.octets.specs.Decimal.{decimal};
ghost use Rattle.octets.specs.Lent.{outcome, overwrite};
ghost use Rattle.show.specs.Hex.{digit_value, byte_of, hex_digit, hex_pair, digits_after, hex_text, spaced_text};
ghost use Rattle.show.specs.Promise.{hex_into, placed};

// The value of a hexadecimal digit, of either case.
fn digit_value(c: u8) -> u8
    ensures { result ≡ digit_value c }
{
    if c < 58 {
        return c % 16;
    }
    (c % 16 + 9) % 16
}

// The byte that two hexadecimal digits say.
fn byte_of(high: u8, low: u8) -> u8
    ensures { result ≡ byte_of high low }
{
    16 * digit_value(high) + digit_value(low)
}

// The bytes that pairs of hexadecimal digits say, put to the front of the buffer; the answer is how many. Where they do
// not fit, none.
pub fn read_hex(text: &[u8], out: &mut [u8]) -> usize
    ensures { outcome result out.new ≡ hex_into text.now out.old }
{
    let n = text.len() / 2;
    if out.len() < n {
        return 0;
    }
    for i in 0..n {
        out[i] = byte_of(text[2 * i], text[2 * i + 1]);
    }
    n
}

// A hexadecimal digit, lower case.
fn hex_digit(d: u8) -> u8
    requires { d < 16 }
    ensures { result ≡ hex_digit d }
{
    if d < 10 {
        return 48 + d;
    }
    87 + d
}

// Puts the two digits of a byte at a place of the buffer.
fn put_pair(b: u8, out: &mut [u8], at: usize)
    requires { at + 2 ≤ length out.old }
    ensures { out.new ≡ overwrite out.old at (hex_pair b) }
{
    out[at] = hex_digit(b / 16);
    out[at + 1] = hex_digit(b % 16);
}

// Puts bytes as hexadecimal digits, each byte's after the same words, at a place of the buffer; the answer is the place
// after them.
fn put_digits(bytes: &[u8], words: &[u8], out: &mut [u8], at: usize) -> usize
    ensures { outcome result out.new ≡ placed (digits_after words.now bytes.now) out.old at }
{
    let width = words.len() + 2;
    if out.len() / width < bytes.len() {
        return at;
    }
    if octets::no_room(width * bytes.len(), at, out.len()) {
        return at;
    }
    let mut end = at;
    for b in bytes {
        octets::put(words, out, end);
        put_pair(*b, out, end + words.len());
        end += width;
    }
    end
}

// Puts bytes as hexadecimal digits, two each, lower case, at a place of the buffer; the answer is the place after them.
pub fn put_hex(bytes: &[u8], out: &mut [u8], at: usize) -> usize
    ensures { outcome result out.new ≡ placed (hex_text bytes.now) out.old at }
{
    put_digits(bytes, b"", out, at)
}

// The same with a blank before each byte.
pub fn put_hex_spaced(bytes: &[u8], out: &mut [u8], at: usize) -> usize
    ensures { outcome result out.new ≡ placed (spaced_text bytes.now) out.old at }
{
    put_digits(bytes, b" ", out, at)
}

// Puts words at a place of the buffer; the answer is the place after them.
pub fn put_text(words: &[u8], out: &mut [u8], at: usize) -> usize
    ensures { outcome result out.new ≡ placed words.now out.old at }
{
    if octets::put(words, out, at) {
        return at + words.len();
    }
    at
}

// Puts the decimal numeral of a number at a place of the buffer; the answer is the place after it.
pub fn put_number(n: u64, out: &mut [u8], at: usize) -> usize
    ensures { outcome result out.new ≡ placed (decimal n) out.old at }
{
    if octets::put_decimal(n, out, at) {
        return at + octets::decimal_length(n);
    }
    at
}
