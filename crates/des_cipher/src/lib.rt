// Enciphering by DES, and cipher block chaining from zeros. What is right is said in the crate `des` (FIPS 46, figures
// 1 and 2).
#![tactic(auto)]

mod boxes;
mod chain;
mod cipher;

pub use chain::cbc_last;
pub use cipher::{encipher, encipher_with};
