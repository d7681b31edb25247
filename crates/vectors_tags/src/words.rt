//! Frames of words: a turn, searches of the table that was lent, and that table held against a family or tried for likeness.
ghost use Rattle.std.specs.Prelude.{◌<◌};

use crate::fields::TagFields;
use muosleap::detector::{best_tag, check_likeness, rotate_bits};
use refusals::Refusal;
use search::{Match, SearchResult};
use tables::Family;
use vectors::answers::{Answer, Corners, number_of};
use vectors::digest::Digest;
use vectors::frames::UnknownKind;
use vectors::{Fields, Generator};

/// What is asked of the table that was lent.
#[derive(Clone, Copy, Debug, PartialEq, Eq)]
enum Question {
    Search,
    Digest,
    Family,
    Likeness,
    CountedSearch,
    CountedDigest,
}

#[derive(Clone, Copy, Debug, PartialEq, Eq)]
enum Kind {
    Turn,
    Table(Question),
}

impl TryFrom<u8> for Kind {
    type Error = UnknownKind;

    fn try_from(number: u8) -> Result<Self, UnknownKind> {
        match number {
            1 => Ok(Kind::Table(Question::Search)),
            2 => Ok(Kind::Table(Question::Digest)),
            3 => Ok(Kind::Turn),
            4 => Ok(Kind::Table(Question::Family)),
            5 => Ok(Kind::Table(Question::Likeness)),
            6 => Ok(Kind::Table(Question::CountedSearch)),
            7 => Ok(Kind::Table(Question::CountedDigest)),
            _ => Err(UnknownKind(number)),
        }
    }
}

fn is_turn_alike(mut fields: Fields) -> bool {
    let edge = fields.u8();
    Some(rotate_bits(fields.u64(), edge).map_err(Refusal::number)) == fields.word()
}

/// The answer of a search, which has no corners, and how many codes were compared, 0 where there is no count.
#[derive(Clone, Copy, Debug, PartialEq, Eq)]
struct Counted {
    answer: Answer,
    compared: u64,
}

impl Counted {
    /// Takes it into a digest, with the codes compared where they are asked for.
    fn add_to(&self, digest: &mut Digest, is_counted: bool) {
        let Answer {
            refusal,
            id,
            turn,
            differing,
            corners: _,
        } = self.answer;
        digest.add(&refusal.to_le_bytes()[..1]);
        digest.add(&id.to_le_bytes()[..2]);
        digest.add(&turn.to_le_bytes()[..1]);
        digest.add(&differing.to_le_bytes()[..1]);
        if is_counted {
            digest.add(&self.compared.to_le_bytes()[..2]);
        }
    }
}

/// How the words of a digest are made.
#[derive(Clone, Copy, Debug, PartialEq, Eq)]
enum Rule {
    /// The numbers from 0 on.
    Numbers,
    /// Each code turned 0, 1, 2 and 3 times.
    Turned,
    /// Codes turned and damaged by chance: 2, and every other number.
    Damaged,
}

impl From<u8> for Rule {
    fn from(number: u8) -> Self {
        match number {
            0 => Rule::Numbers,
            1 => Rule::Turned,
            _ => Rule::Damaged,
        }
    }
}

/// The table that was lent, but for its border.
#[derive(Clone, Copy)]
struct Table<'a> {
    edge: u8,
    hamming_distance: u8,
    codes: &'a [u64],
}

impl Table<'_> {
    fn search(&self, bits: u64) -> Counted {
        match best_tag(bits, self.hamming_distance, self.codes, self.edge) {
            Ok(SearchResult { found, compared }) => Counted {
                answer: match found {
                    Some(
                        Match {
                            id,
                            turn,
                            differing,
                        },
                    ) => Answer::found(id, turn, differing, Corners::all(0.0)),
                    None => Answer::refused(Refusal::Unread.number()),
                },
                compared: compared as u64,
            },
            Err(refusal) => Counted {
                answer: Answer::refused(refusal.number()),
                compared: 0,
            },
        }
    }

    fn is_search_alike(&self, mut fields: Fields) -> bool {
        self.search(fields.u64()).answer == fields.answer()
    }

    fn is_counted_search_alike(&self, mut fields: Fields) -> bool {
        let got = self.search(fields.u64());
        got.compared == u64::from(fields.u16()) && got.answer == fields.answer()
    }

    /// The code at a position, 0 where there is none, turned 0 to 3 times.
    fn turned(&self, position: u64, turns: u64) -> u64 {
        let mut bits = self.codes.get(position as usize).copied().unwrap_or(0);
        for _ in 0..turns % 4 {
            bits = rotate_bits(bits, self.edge).unwrap_or(0);
        }
        bits
    }

    /// A code of the table turned 0 to 3 times, with about one bit in sixteen flipped, also above the square.
    fn damaged(&self, generator: &mut Generator) -> u64 {
        let place = generator.draw();
        let turns = generator.draw();
        let flipped = generator.draw() & generator.draw() & generator.draw() & generator.draw();
        match place.checked_rem(self.codes.len() as u64) {
            Some(position) => self.turned(position, turns) ^ flipped,
            None => 0,
        }
    }

    /// Word k of a digest.
    fn word(&self, rule: Rule, k: u64, generator: &mut Generator) -> u64 {
        match rule {
            Rule::Numbers => k,
            Rule::Turned => self.turned(k / 4, k),
            Rule::Damaged => self.damaged(generator),
        }
    }

    fn is_digest_alike(&self, mut fields: Fields, is_counted: bool) -> bool {
        let rule = Rule::from(fields.u8());
        let mut generator = Generator(fields.u64());
        let mut digest = Digest::new();
        for k in 0..fields.u32() {
            let bits = self.word(rule, u64::from(k), &mut generator);
            self.search(bits).add_to(&mut digest, is_counted);
        }
        digest.value() == fields.u64()
    }

    /// Whether the codes are those of a family.
    fn are_codes_of(&self, number: u8) -> bool
        requires { number < 5 }
    {
        let mut codes = self.codes.iter().enumerate();
        self.codes.len() == tag_families::code_count(number)
            && codes.all(|(position, code)| *code == tag_families::code(number, position))
    }

    /// Whether the family of a number has the table's edge, threshold and codes, and the frame's border.
    fn is_family_alike(&self, mut fields: Fields) -> bool {
        let number = fields.u8();
        let Ok(known) = tag_families::table(number) else {
            return false;
        };
        known.family.edge == self.edge
            && known.family.border == fields.u8()
            && known.family.hamming_distance == self.hamming_distance
            && self.are_codes_of(number)
    }

    /// A frame's threshold and border with the table's edge and codes.
    fn is_likeness_alike(&self, mut fields: Fields) -> bool {
        let family = Family {
            edge: self.edge,
            hamming_distance: fields.u8(),
            border: fields.u8(),
        };
        number_of(check_likeness(family, self.codes)) == fields.u8()
    }
}

/// The codes of eight bytes in `s`, as many as there is room for.
pub fn codes_in<'a>(s: &[u8], room: &'a mut [u64]) -> &'a [u64] {
    let count = (s.len() / 8).min(room.len());
    let codes = &mut room[..count];
    let mut fields = Fields::new(s);
    for code in codes.iter_mut() {
        *code = fields.u64();
    }
    codes
}

impl Question {
    /// Asks the table of the frame that was lent.
    fn is_alike(self, fields: Fields, lent: &[u8]) -> bool {
        let mut room = [0u64; 1025];
        let mut lent = Fields::new(lent);
        lent.u8();
        let table = Table {
            edge: lent.u8(),
            hamming_distance: lent.u8(),
            codes: codes_in(lent.rest(), &mut room),
        };
        match self {
            Question::Search => table.is_search_alike(fields),
            Question::Digest => table.is_digest_alike(fields, false),
            Question::Family => table.is_family_alike(fields),
            Question::Likeness => table.is_likeness_alike(fields),
            Question::CountedSearch => table.is_counted_search_alike(fields),
            Question::CountedDigest => table.is_digest_alike(fields, true),
        }
    }
}

/// A turn asks no table, and none is read for it.
pub fn is_alike(frame: &[u8], lent: &[u8]) -> Result<bool, UnknownKind> {
    let mut fields = Fields::new(frame);
    Ok(match Kind::try_from(fields.u8())? {
        Kind::Turn => is_turn_alike(fields),
        Kind::Table(question) => question.is_alike(fields, lent),
    })
}
