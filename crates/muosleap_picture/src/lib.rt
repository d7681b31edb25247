//! Every public entry on pictures, and nothing else; those on tags are in `muosleap` and `muosleap_paint`. No entry demands anything of
//! its caller: each tests its own refusals, in their order, and then calls the core below.
//! Picture to clusters: blur, response, threshold; clusters and their centres.
#![tactic(auto)]

pub mod image_util;
pub mod saddles;
