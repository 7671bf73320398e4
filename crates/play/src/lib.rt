// What the steps of a played session share.
#![tactic(auto)]

// The server's seed. What its bytes are for is said in `specs/Seed.antt`.
pub const SEED: [u8; 8] = *b"\x00\x4C\x01\x19\x02\xFF\x03\xB2";
