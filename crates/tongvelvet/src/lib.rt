// The calls of the header `include/tongvelvet.h`, as the archive has them: for each the function of the exports that does
// it, which Rattle crates call too. What a call promises is said again here, and proved.
#![tactic(auto)]

mod env_calls;
mod listing_calls;
mod option_calls;
mod password_calls;
mod print_calls;
mod profile_calls;
mod reader_calls;
mod signon_calls;
mod telnet_calls;
