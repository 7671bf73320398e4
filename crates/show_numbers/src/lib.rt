// Numbers that pairs of bytes say, for programs that show what the libraries do. Each is total.
#![tactic(auto)]

ghost use Rattle.std.specs.Prelude.{◌≡◌, drop};
ghost use Rattle.octets.specs.Lent.{outcome};
ghost use Rattle.show_numbers.specs.Numbers.{number_of, number_in, numbers_into};

// The number of two bytes.
fn number(high: u8, low: u8) -> usize
    ensures { result ≡ number_of high low }
{
    let n = (high as usize) * 256 + (low as usize);
    if n == 65535 {
        return 0xFFFFFFFFFFFFFFFF;
    }
    n
}

// The number that the two bytes at a place say; 0 where there are not two.
pub fn number_at(bytes: &[u8], at: usize) -> usize
    ensures { result ≡ number_in (drop at bytes.now) }
{
    let n = bytes.len();
    if n <= at {
        return 0;
    }
    if n - at < 2 {
        return 0;
    }
    number(bytes[at], bytes[at + 1])
}

// The numbers that pairs of bytes say, put to the front of a list; the answer is how many. Where they do not fit, none.
pub fn put_numbers(bytes: &[u8], numbers: &mut [usize]) -> usize
    ensures { outcome result numbers.new ≡ numbers_into bytes.now numbers.old }
{
    let n = bytes.len() / 2;
    if numbers.len() < n {
        return 0;
    }
    for i in 0..n {
        numbers[i] = number_at(bytes, 2 * i);
    }
    n
}
