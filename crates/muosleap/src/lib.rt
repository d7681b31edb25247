//! Every public entry that reads tags, and nothing else: codes, levels, one quad, lists of quads. Those that paint tags are in
//! `muosleap_paint`, those on pictures in `muosleap_picture`, those on reports in `muosleap_report`. An entry that takes a table comes
//! in two forms, with a lent table and by a family's number, as document 01 and C have it. No entry demands anything of its caller: each
//! tests its own refusals, in their order, and then calls the core below.
#![tactic(auto)]

pub mod detector;
pub mod quads;
