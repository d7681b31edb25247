//! What the papers ask to be proved of the whole: document 01's proved examples (its rows marked P) in specs/Rows.antt, demand 3
//! in specs/Demand3.antt, document 02's laws of padded lines, of differing modules, of whole sheets, of repeated ids, of codes
//! compared, of reports and of lit pictures in specs/Padded.antt, HowFarOff.antt, Sheet.antt, Repeated.antt, PerfectMatch.antt, Reports.antt and Light.antt, and how far
//! corners may be off in OffCorners.antt; the proofs have the same names. There is no code here.
#![tactic(auto)]
