// DES (FIPS 46): blocks and keys are 64-bit numbers, the first bit highest. This crate has what is right, and no
// function: `specs/Tables.antt`, `specs/Schedule.antt` and `specs/Cipher.antt` are the standard's figures. The code is
// in `des_permutation`, `des_schedule` and `des_cipher`.

#![tactic(auto)]
