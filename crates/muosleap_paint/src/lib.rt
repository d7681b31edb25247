//! Tag to picture: every public entry that paints tags, one tag or a whole sheet, and nothing else; those that read tags are in
//! `muosleap`. An entry comes in two forms, with what it takes of a table lent and by a family's number, as document 01 and C have it. No
//! entry demands anything of its caller: each tests what it is given or makes checked values of it, in the order of the refusals, and then
//! calls the core below.
#![tactic(auto)]

pub mod painting;
pub mod sheet;
