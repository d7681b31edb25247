//! The likeness check of a table: whether its codes, in all their turns, are far enough apart to be read one way only.
#![tactic(auto)]

ghost use Rattle.std.specs.Prelude.{◌≡◌, false, ◌*◌, ◌^◌, ◌<◌, ◌≤◌, length};
ghost use Rattle.std.specs.List.{list_all};
ghost use Rattle.tables.specs.Table.{bad_codes};
ghost use Rattle.likeness.specs.Likeness.{mixed, passes_at, likeness};
ghost use Rattle.likeness.specs.Turned.{four_turns, far_from, far_self};

/// The code, and the code turned once, twice and three times.
fn four_turns(code: u64, edge: u8) -> [u64; 4]
    requires { (0 < edge) × (edge ≤ 8) }
    ensures { result ≡ four_turns edge code }
{
    let once = word::rotate_bits(code, edge);
    let twice = word::rotate_bits(once, edge);
    [code, once, twice, word::rotate_bits(twice, edge)]
}

/// At least `t` ones and `t` zeros in the square.
fn is_mixed(code: u64, edge: u8, t: u32) -> bool
    requires { (edge ≤ 8) × (code < 2 ^ (edge * edge)) × (t ≤ 64) }
    ensures { result ≡ mixed edge t code }
{
    let ones = word::differing_bits(code, 0);
    let places = (edge as u32) * (edge as u32);
    t <= ones && t <= places - ones
}

/// The code differs in at least `least` bits from its first and its second turn; its third turn is its first turn's mirror of that.
fn is_far_from_itself(turns: [u64; 4], least: u32) -> bool
    ensures { result ≡ far_self least turns }
{
    least <= word::differing_bits(turns[0], turns[1])
        && least <= word::differing_bits(turns[0], turns[2])
}

/// In none of its turns does the code differ from `other` in fewer than `least` bits.
fn is_far_from(turns: [u64; 4], other: u64, least: u32) -> bool
    ensures { result ≡ far_from least turns other }
{
    turns
        .iter()
        .all(|&turned| least <= word::differing_bits(turned, other))
}

/// The same for all of `others`.
fn is_far_from_all(turns: [u64; 4], others: &[u64], least: u32) -> bool
    ensures { result ≡ list_all (far_from least turns) others.now }
{
    others.iter().all(|&other| is_far_from(turns, other, least))
}

/// The code at position `n` by itself, and against the codes before it.
fn code_passes(codes: &[u64], n: usize, edge: u8, threshold: u8) -> bool
    requires { (bad_codes edge threshold codes.now ≡ false) × (n < length codes.now) }
    ensures { result ≡ passes_at edge threshold codes.now n }
{
    let t = threshold as u32;
    let least = 2 * t - 1;
    let turns = four_turns(codes[n], edge);
    is_mixed(codes[n], edge, t)
        && is_far_from_itself(turns, least)
        && is_far_from_all(turns, &codes[..n], least)
}

/// The whole check, for codes that refusal 6 lets through. It asks for no border, and so takes no `Table`, which has one.
pub fn passes(codes: &[u64], edge: u8, threshold: u8) -> bool
    requires { bad_codes edge threshold codes.now ≡ false }
    ensures { result ≡ likeness edge threshold codes.now }
{
    (0..codes.len()).all(|n| code_passes(codes, n, edge, threshold))
}
