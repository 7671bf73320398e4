// Enciphering one block.
ghost use Rattle.std.specs.Prelude.{◌≡◌, suc, ◌-◌, ◌*◌, ◌/◌, ◌%◌, ◌^◌, ◌<◌, get_or};
ghost use Rattle.std.specs.Int.Bits.{bit_xor};
ghost use Rattle.des.specs.Blocks.{permuted};
ghost use Rattle.des.specs.Cipher.{S, selected, f, output, enciphered};
ghost use Rattle.des.specs.Tables.{P};
ghost use Rattle.des_cipher.specs.Internal.Boxes.{Widened, box_array};

use crate::boxes::boxes;
use des_permutation::{final_permutation, initial_permutation};
use des_schedule::key_schedule;

// The last bit of R, its 32 bits and its first bit, which hold the groups of E(R).
fn widen(r: u64) -> u64
    requires { r < 2 ^ 32 }
    ensures { Widened r result }
{
    ((r & 1) << 33) ^ (r << 1) ^ (r >> 31)
}

// What S box `j` + 1 gives for its six bits: those of E(R) added to those of a round key.
fn boxed(boxes: &[u8; 512], e: u64, key: &[u8; 8], j: usize) -> u8
    requires { (boxes.now ≡ box_array) × (j < 8) }
    ensures { result ≡ selected (S (suc j)) (bit_xor (e / 2 ^ (28 - 4 * j) % 2 ^ 6) (get_or key.now j 0)) }
{
    let b = (((e >> (28 - 4 * j)) & 63) as u8 ^ key[j]) & 63;
    boxes[64 * j + (b as usize)]
}

// The permutation P: bits that move by the same distance move together, in a circle, since the word is there twice.
fn permute_p(word: u64) -> u64
    requires { word < 2 ^ 32 }
    ensures { result ≡ permuted 32 P word }
{
    let x = (word << 32) ^ word;
    ((x >> 6) & 0x11080)
        ^ ((x >> 7) & 0x9)
        ^ ((x >> 8) & 0x8880000)
        ^ ((x >> 10) & 0x4000)
        ^ ((x >> 11) & 0x2000000)
        ^ ((x >> 13) & 0x40)
        ^ ((x >> 15) & 0x30008100)
        ^ ((x >> 16) & 0x20000)
        ^ ((x >> 17) & 0x80000000)
        ^ ((x >> 18) & 0x100000)
        ^ ((x >> 19) & 0x4)
        ^ ((x >> 20) & 0x200200)
        ^ ((x >> 21) & 0x800)
        ^ ((x >> 22) & 0x10)
        ^ ((x >> 23) & 0x1000000)
        ^ ((x >> 26) & 0x4000000)
        ^ ((x >> 27) & 0x40402402)
        ^ ((x >> 28) & 0x40000)
        ^ ((x >> 29) & 0x20)
}

// The cipher function with a round key.
fn mix(r: u64, key: &[u8; 8], boxes: &[u8; 512]) -> u64
    requires { (r < 2 ^ 32) × (boxes.now ≡ box_array) }
    ensures { result ≡ f r key.now }
{
    let e = widen(r);
    let mut out: u64 = 0;
    for j in 0..8 {
        out = (out << 4) | u64::from(boxed(boxes, e, key, j));
    }
    permute_p(out)
}

// Enciphers a block under round keys, with the boxes lent.
pub(crate) fn encipher_by(keys: &[[u8; 8]; 16], boxes: &[u8; 512], block: u64) -> u64
    requires { boxes.now ≡ box_array }
    ensures { result ≡ output keys.now block }
{
    let start = initial_permutation(block);
    let mut left = start >> 32;
    let mut right = start & 0xFFFFFFFF;
    for key in keys {
        let next = left ^ mix(right, key, boxes);
        left = right;
        right = next;
    }
    final_permutation((right << 32) | left)
}

// Enciphers a block under round keys, of whose groups the low six bits count.
pub fn encipher_with(keys: [[u8; 8]; 16], block: u64) -> u64
    ensures { result ≡ output keys block }
{
    encipher_by(&keys, &boxes(), block)
}

// Enciphers a block under a key.
pub fn encipher(key: u64, block: u64) -> u64
    ensures { result ≡ enciphered key block }
{
    encipher_with(key_schedule(key), block)
}
