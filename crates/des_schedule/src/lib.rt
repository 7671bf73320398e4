// Keys: the DES key of a password, and the round keys of a key. What is right is said in the crate `des` (FIPS 46,
// figure 3) and in `specs/Password.antt`.
#![tactic(auto)]

ghost use Rattle.std.specs.Prelude.{◌≡◌, ◌+◌, ◌*◌, ◌/◌, ◌%◌, ◌^◌, ◌<◌, get_or};
ghost use Rattle.des.specs.Blocks.{permuted, groups};
ghost use Rattle.des_schedule.specs.Password.{prepared};
ghost use Rattle.des.specs.Schedule.{rotated, round_keys};
ghost use Rattle.des.specs.Tables.{PC-2, shifts};

use des_permutation::permuted_choice_1;

// The key of a padded password.
pub fn prepare_key(padded: u64) -> u64
    ensures { result ≡ prepared padded }
{
    (padded ^ 0x5555555555555555) << 1
}

// Six bits, of which the last is worth 2 ^ `low`.
fn six(x: u64, low: u32) -> u8
    requires { low < 64 }
    ensures { result ≡ x / 2 ^ low % 64 }
{
    ((x >> low) & 63) as u8
}

// The groups of 48 bits.
fn split(x: u64) -> [u8; 8]
    ensures { result ≡ groups x }
{
    [
        six(x, 42),
        six(x, 36),
        six(x, 30),
        six(x, 24),
        six(x, 18),
        six(x, 12),
        six(x, 6),
        six(x, 0),
    ]
}

// 28 bits shifted left in a circle.
fn rotate(c: u64, n: u32) -> u64
    requires { (c < 2 ^ 28) × (n < 28) }
    ensures { (result ≡ rotated n c) × (result < 2 ^ 28) }
{
    ((c << n) & 0xFFFFFFF) | (c >> (28 - n))
}

// The number of left shifts in iteration `i` + 1: one in iterations 1, 2, 9 and 16, else two.
fn shift_at(i: usize) -> u32
    requires { i < 16 }
    ensures { (result ≡ get_or shifts i 0) × (result < 28) }
{
    2 - ((0x8103u32 >> i) & 1)
}

// Permuted choice 2: the bits that move by the same distance move together.
fn second_choice(x: u64) -> u64
    requires { x < 2 ^ 56 }
    ensures { result ≡ permuted 56 PC-2 x }
{
    ((x & 0x10) << 18)
        ^ ((x & 0x2) << 17)
        ^ ((x & 0x110000000) << 12)
        ^ ((x & 0x220) << 10)
        ^ ((x & 0x8001) << 8)
        ^ ((x & 0x8000000000) << 7)
        ^ ((x & 0x40000000000) << 5)
        ^ ((x & 0x100) << 4)
        ^ ((x & 0x888) << 3)
        ^ ((x & 0xA00000000) << 2)
        ^ ((x & 0x40080000) << 1)
        ^ (x & 0x200000010000)
        ^ ((x & 0x1000) >> 1)
        ^ ((x & 0x20020000000) >> 2)
        ^ ((x & 0x2000000040) >> 3)
        ^ ((x & 0x2000000) >> 4)
        ^ ((x & 0x400) >> 5)
        ^ ((x & 0x20000) >> 8)
        ^ ((x & 0x8000004000000) >> 9)
        ^ ((x & 0x401000804000) >> 10)
        ^ ((x & 0x110000000000) >> 11)
        ^ ((x & 0xA4000000000000) >> 12)
        ^ ((x & 0x400000) >> 15)
        ^ ((x & 0x1080000100000) >> 18)
        ^ ((x & 0x10000000000000) >> 20)
        ^ ((x & 0x2000000000000) >> 21)
        ^ ((x & 0x1000000) >> 24)
        ^ ((x & 0x8000000) >> 26)
        ^ ((x & 0x40000000000000) >> 30)
}

// The round key that C and D give.
fn key_of(c: u64, d: u64) -> [u8; 8]
    requires { (c < 2 ^ 28) × (d < 2 ^ 28) }
    ensures { result ≡ groups (permuted 56 PC-2 (c * 2 ^ 28 + d)) }
{
    split(second_choice((c << 28) | d))
}

// The round keys of a key.
pub fn key_schedule(key: u64) -> [[u8; 8]; 16]
    ensures { result ≡ round_keys key }
{
    let start = permuted_choice_1(key);
    let mut c = start >> 28;
    let mut d = start & 0xFFFFFFF;
    let mut keys = [[0u8; 8]; 16];
    for i in 0..16 {
        let n = shift_at(i);
        c = rotate(c, n);
        d = rotate(d, n);
        keys[i] = key_of(c, d);
    }
    keys
}
