// The permutations of DES by tables of places: the initial one, its inverse, and permuted choice 1. What is right is
// said in the crate `des`.
#![tactic(auto)]

ghost use Rattle.std.specs.Prelude.{◌≡◌, ◌≤◌, T, length};
ghost use Rattle.des.specs.Blocks.{permuted};
ghost use Rattle.des_permutation.specs.Internal.Within.{places_within};
ghost use Rattle.des.specs.Tables.{IP, IP⁻¹, PC-1};

use tables::{CHOICE_1, FINAL, INITIAL};

mod tables;

// What a table makes of a block of `width` bits.
fn permute(x: u64, width: u32, places: &[u8]) -> u64
    requires { (width ≤ 64) × (length places.now ≤ 64) × T (places_within width places.now) }
    ensures { result ≡ permuted width places.now x }
{
    let mut out: u64 = 0;
    for p in places {
        let p = u32::from(*p);
        out = (out << 1) | ((x >> (width - p)) & 1);
    }
    out
}

// The initial permutation.
pub fn initial_permutation(x: u64) -> u64
    ensures { result ≡ permuted 64 IP x }
{
    permute(x, 64, &INITIAL)
}

// The inverse of the initial permutation.
pub fn final_permutation(x: u64) -> u64
    ensures { result ≡ permuted 64 IP⁻¹ x }
{
    permute(x, 64, &FINAL)
}

// Permuted choice 1: the 56 bits of a key that are not parity bits.
pub fn permuted_choice_1(key: u64) -> u64
    ensures { result ≡ permuted 64 PC-1 key }
{
    permute(key, 64, &CHOICE_1)
}
