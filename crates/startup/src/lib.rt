// Start-up response records. This crate has what is right, and no function: start with `specs/Response.antt`.

#![tactic(auto)]
