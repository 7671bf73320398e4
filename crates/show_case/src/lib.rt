// Cases of the programs that run calls and say their answers: a case is a line of a text, with a title, a colon, and
// bytes in hexadecimal digits. What is said goes to standard output, of which no contract speaks.
#![tactic(auto)]

ghost use Rattle.std.specs.Prelude.{◌≡◌, List, [], ◌∷◌, ℕ, ◌-◌, ◌^◌, ◌≤◌, ◌<◌, length};
ghost use Rattle.octets.specs.Lent.{outcome};
ghost use Rattle.show.specs.Promise.{hex_into};
ghost use Rattle.show_case.specs.Case.{line_at, after_line, lines, title_in, digits_in, is_title, case_in};
ghost use Rattle.std.specs.Fn.{CalledAt, FnOnceReturnsAt};
ghost use Rattle.std.specs.List.{FoldsTo};

// The line at a place of a text, without its end.
pub fn line_at(text: &[u8], at: usize) -> &[u8]
    ensures { result.now ≡ line_at text.now at }
{
    let end = octets_find::find_byte(text, at, b'\n');
    octets_part::part(text, at, end - at)
}

// The place after that line and its end: less of the text is left from there on, unless nothing was.
pub fn after_line(text: &[u8], at: usize) -> usize
    ensures { (result ≡ after_line text.now at)
        × (length text.now - result ≤ length text.now - at - 1) }
{
    let end = octets_find::find_byte(text, at, b'\n');
    if end < text.len() {
        return end + 1;
    }
    end
}

// Calls a function at each line of a text, in order.
pub fn each_line<F: FnMut(&[u8])>(text: &[u8], mut f: F)
    requires { F.IsAlwaysCallable f }
    ensures { (last : F) × FoldsTo (λ before line after. CalledAt F.FnMut before line tt after) f (lines text.now) last }
{
    let mut at = 0;
    while at < text.len() {
        f(line_at(text, at));
        at = after_line(text, at);
    }
}

// Reads standard input, of which the first `N` bytes count, and calls a function at each of its lines, in order.
pub fn each_input_line<const N: usize, F: FnMut(&[u8])>(f: F)
    requires small { N < 2 ^ 63 }
    requires called { F.IsAlwaysCallable f }
    ensures { (text : List ℕ) × (length text ≤ N) × (last : F)
        × FoldsTo (λ before line after. CalledAt F.FnMut before line tt after) f (lines text) last }
{
    let mut input = [0u8; N];
    let n = io::read_full(0, &mut input);
    each_line(&input[..n], f);
}

fn say(words: &[u8]) {
    io::write_all(1, words);
}

// What comes before the colon of a line.
pub fn title(line: &[u8]) -> &[u8]
    ensures { result.now ≡ title_in line.now }
{
    let colon = octets_find::find_byte(line, 0, b':');
    octets_part::part(line, 0, colon)
}

// What comes after it.
pub fn digits(line: &[u8]) -> &[u8]
    ensures { result.now ≡ digits_in line.now }
{
    let colon = octets_find::find_byte(line, 0, b':');
    let rest = octets_part::part(line, colon, line.len());
    octets_part::part(rest, 1, rest.len())
}

// Says the title of a line, with its colon, and calls a function with the bytes of its digits, or with none where they
// are more than `N`.
pub fn with_case<const N: usize, F: FnOnce(&[u8])>(line: &[u8], f: F)
    requires small { N < 2 ^ 63 }
    requires called { F.IsAlwaysCallable f }
    ensures { FnOnceReturnsAt F.FnOnce f (case_in N line.now) tt }
{
    let mut case = [0u8; N];
    let n = begin_case(line, &mut case);
    f(&case[..n]);
}

fn say_title(line: &[u8]) {
    say(title(line));
    say(b":");
}

// Says the title of a line, with its colon, and puts the bytes of its digits to the front of a buffer; the answer is
// how many. Where they do not fit, none.
pub fn begin_case(line: &[u8], case: &mut [u8]) -> usize
    ensures { outcome result case.new ≡ hex_into (digits_in line.now) case.old }
{
    say_title(line);
    show::read_hex(digits(line), case)
}

// Whether a line has no colon: it is a title alone.
pub fn is_title(line: &[u8]) -> bool
    ensures { result ≡ is_title line.now }
{
    octets_find::find_byte(line, 0, b':') == line.len()
}

// Calls a function at each item of a list, in order; the answer is how many there are.
fn say_each<T: Copy, F: FnMut(T)>(items: &[T], mut say: F) -> usize
    requires { F.IsAlwaysCallable say }
    ensures said { (last : F) × FoldsTo (λ before item after. F.step before item tt after) say items.now last }
    ensures counted { result ≡ length items.now }
{
    for item in items {
        say(*item);
    }
    items.len()
}

fn say_number(n: usize) {
    say(b" ");
    io::print_decimal(1, n as u64);
}

// Says numbers, each after a blank; the answer is how many.
pub fn say_numbers(numbers: &[usize]) -> usize
    ensures { result ≡ length numbers.now }
{
    say_each(numbers, say_number)
}

fn say_value(b: u8) {
    say_number(b as usize);
}

// Says bytes as numbers, each after a blank; the answer is how many.
pub fn say_values(bytes: &[u8]) -> usize
    ensures { result ≡ length bytes.now }
{
    say_each(bytes, say_value)
}

fn say_byte(b: u8) {
    say(b" ");
    io::print_hex(1, b as u64, 2);
}

// Says a semicolon and bytes, each as two hexadecimal digits after a blank; the answer is how many.
pub fn say_bytes(bytes: &[u8]) -> usize
    ensures { result ≡ length bytes.now }
{
    say(b";");
    say_each(bytes, say_byte)
}
