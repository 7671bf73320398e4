// The DES known-answer tests of NIST SP 800-17 (encryption of one block: the sets variable plaintext, variable key,
// permutation and substitution) and the example with key 133457799BBCDFF1, 172 in all. Each line of standard input is a
// key and a plaintext; they are written out with the ciphertext computed, and `stdout` has the published one. Longer
// lines are sixteen round keys of eight groups, a byte each, and a plaintext: those of the example's key as they are
// and with 64, 128 and 192 added, and groups about 63 and 64. Their ciphertexts are from a Python rendering of FIPS
// 46's tables, in which the low six bits of a group count (`docs/DECISIONS.md`, D1). Last comes the CBC example of FIPS
// 81 (key 0123456789ABCDEF, "Now is the time for all "), cut after no, one, two and three blocks. Its initialization
// vector 1234567890ABCDEF is added to the first block, since the chain here starts from zeros.
#![tactic(auto)]

fn eight(digits: &[u8]) -> [u8; 8] {
    let mut bytes = [0u8; 8];
    show::read_hex(digits, &mut bytes);
    bytes
}

fn number(digits: &[u8]) -> u64 {
    words::word_64(&eight(digits))
}

// Sixteen round keys of 16 digits each.
fn round_keys(digits: &[u8]) -> [[u8; 8]; 16] {
    let mut keys = [[0u8; 8]; 16];
    for (key, digits) in keys.iter_mut().zip(digits.chunks_exact(16)) {
        *key = eight(digits);
    }
    keys
}

fn say_answer(ciphertext: u64) {
    io::write_all(1, b" ");
    io::print_hex(1, ciphertext, 16);
    io::write_all(1, b"\n");
}

fn say(key: u64, plaintext: u64) {
    io::print_hex(1, key, 16);
    io::write_all(1, b" ");
    io::print_hex(1, plaintext, 16);
    say_answer(des_cipher::encipher(key, plaintext));
}

// A line: a key or round keys, a blank, and a plaintext.
fn run_line(line: &[u8]) {
    if line.len() == 33 {
        say(number(&line[0..16]), number(&line[17..33]));
    }
    if line.len() == 273 {
        io::write_all(1, line);
        say_answer(des_cipher::encipher_with(round_keys(&line[0..256]), number(&line[257..273])));
    }
}

fn say_chain(blocks: &[u64]) {
    io::print_hex(1, des_cipher::cbc_last(0x0123456789ABCDEF, blocks), 16);
    io::write_all(1, b"\n");
}

fn main() {
    show_case::each_input_line::<16384, _>(run_line);
    let text: [u64; 3] = [
        0x4E6F772069732074 ^ 0x1234567890ABCDEF,
        0x68652074696D6520,
        0x666F7220616C6C20,
    ];
    say_chain(&text[..0]);
    say_chain(&text[..1]);
    say_chain(&text[..2]);
    say_chain(&text);
}
