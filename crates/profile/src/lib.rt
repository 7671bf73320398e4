// Profiles and the profile table. This crate has what is right, and no function: start with `specs/Profile.antt` and
// `specs/Table.antt`.

// The version byte of a table, and the most profiles that it has.
#![tactic(auto)]

pub const TABLE_VERSION: u8 = 1;

pub const PROFILE_COUNT: usize = 500;
