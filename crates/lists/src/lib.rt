//! Lists given by a function of the index, tests of all or any numbers, sums and counts, rows and columns of a plane, what stands at the
//! front of an output.
//! The definitions are in specs/, and in proofs/ the laws of the loops that test or write a slice, once for all crates.
//! There is no code here.
#![tactic(auto)]
