//! The search for the code that a word shows: over four turns of the word and all codes of a table.
#![tactic(auto)]

ghost use Rattle.std.specs.Prelude.{◌≡◌, ◌<◌, ◌≤◌, ◌*◌, length};
ghost use Rattle.search.specs.Search.{search};
ghost use Rattle.search.specs.Compared.{compared};
ghost use Rattle.search.specs.Answer.{paper_found};

/// A code near a word: its position in the table, the turn of the word at which it is near, and in how many bits it differs then.
#[derive(Clone, Copy, Debug, PartialEq, Eq)]
pub struct Match {
    pub id: usize,
    pub turn: u8,
    pub differing: u8,
}

/// What a search found, and the count of codes that it compared. No code found is refusal 13; the count stands beside it.
#[derive(Clone, Copy, Debug, PartialEq, Eq)]
pub struct SearchResult {
    pub found: Option<Match>,
    pub compared: usize,
}

/// The first of the four turns that has a code nearer than the match threshold answers, with the nearest, and the first on a tie
/// (`best_tag` of the original). Most words are clean: at a code that differs in no bit the search leaves both the turn and the table.
/// Each code met counts one.
#[tactic(auto, using(crate::proofs::Rest::laws))]
pub fn best_tag(bits: u64, hamming_distance: u8, codes: &[u64], edge: u8) -> SearchResult
    requires { (0 < edge) × (edge ≤ 8) × (0 < hamming_distance) × (hamming_distance ≤ 64) }
    ensures answer { paper_found result ≡ search bits hamming_distance codes.now edge }
    ensures count { result.compared ≡ compared bits hamming_distance codes.now edge }
    ensures bounded { result.compared ≤ 4 * length codes.now }
{
    // What is nearer than `nearest` becomes what was found. As it begins at the match threshold, one comparison a code tells both
    // whether the code is near and whether it is the nearest.
    let mut nearest = hamming_distance;
    let mut found = None;
    let mut seen = bits;
    let mut compared = 0;
    'turns: for turn in 0..4 {
        for (id, &code) in codes.iter().enumerate() {
            compared += 1;
            let differing = word::differing_bits(seen, code) as u8;
            if differing < nearest {
                nearest = differing;
                found = Some(Match {
                    id,
                    turn,
                    differing,
                });
                if differing == 0 {
                    break 'turns;
                }
            }
        }
        if found.is_some() {
            break;
        }
        seen = word::rotate_bits(seen, edge);
    }
    SearchResult { found, compared }
}
