//! The public entries for C and Rust; the header is include/muosleap.h. Each makes the structs of C's numbers, calls the entry for Rattle,
//! and answers the refusal's number, 0 where accepted. Outputs that the entry takes are lent on to it; the other ones are written only
//! where accepted, but for the count of codes compared, which muosleap_best_tag writes beside 13 too.
#![tactic(auto)]

pub mod codes;
pub mod painting;
pub mod picture;
pub mod quads;
pub mod reports;
mod structs;
