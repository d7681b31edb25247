//! Every public entry on reports, and nothing else. No entry demands anything of its caller: each tests its own refusals, in the order
//! of document 02, and then calls the core below.
#![tactic(auto)]

pub mod reports;
