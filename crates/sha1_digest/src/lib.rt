// The SHA-1 digest of a message.
#![tactic(auto)]

mod padding;

ghost use Rattle.std.specs.Prelude.{◌≡◌, ◌≤◌, length};
ghost use Rattle.octets.specs.Lent.{overwrite};
ghost use Rattle.words.specs.BigEndian.{bytes};
ghost use Rattle.sha1_hash.specs.Sha1.{H⁰, digest_of, sha1};
ghost use Rattle.sha1_block.specs.Held.{five};

use sha1_block::Words;

// The hash value before the first block.
fn initial() -> Words
    ensures { five result ≡ H⁰ }
{
    Words {
        a: 0x67452301,
        b: 0xefcdab89,
        c: 0x98badcfe,
        d: 0x10325476,
        e: 0xc3d2e1f0,
    }
}

// Puts the bytes of a word at a place of a digest.
fn with_word(digest: [u8; 20], at: usize, x: u32) -> [u8; 20]
    requires { (length digest ≡ 20) × (at ≤ 16) }
    ensures { (length result ≡ 20) × (result ≡ overwrite digest at (bytes 4 x)) }
{
    let mut out = digest;
    octets::put(&words::bytes_32(x), &mut out, at);
    out
}

// The digest that a hash value is.
fn output(h: Words) -> [u8; 20]
    ensures { result ≡ digest_of (five h) }
{
    let two = with_word(with_word([0u8; 20], 0, h.a), 4, h.b);
    let four = with_word(with_word(two, 8, h.c), 12, h.d);
    with_word(four, 16, h.e)
}

// The digest of a message. The length of one of 2^64 bits or more counts modulo 2^64.
pub fn digest(message: &[u8]) -> [u8; 20]
    ensures { result ≡ sha1 message.now }
{
    let whole = message.len() / 64 * 64;
    let last = padding::last_blocks(&message[whole..], message.len() as u64);
    let end = padding::end_of(message.len() - whole);
    let h = sha1_block::absorb(initial(), message);
    output(sha1_block::absorb(h, &last[..end]))
}
