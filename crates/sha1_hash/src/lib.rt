// SHA-1. This crate has what is right, and no function: `specs/Sha1.antt`, in the order of FIPS 180-4. The code is in
// `sha1_block` and `sha1_digest`.

#![tactic(auto)]
