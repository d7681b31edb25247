//! What `readbits` prints for the bytes that it has read.
#![tactic(auto)]

ghost use Rattle.std.specs.Prelude.{◌≡◌, Some, None, cond, [], ◌∷◌, ◌++◌, ◌+◌, ◌*◌, ◌≤◌, ◌<◌, length, IfSome};
ghost use Rattle.readbits_lines.specs.Word.{is_digit, digit_number, is_word, number_of};
ghost use Rattle.text.specs.Text.{line_feed};
ghost use Rattle.search.specs.Answer.{paper_match};
ghost use Rattle.readbits_lines.specs.Readbits.{searched, after_word, printed_line, readbits};
ghost use Rattle.text.specs.Put.{Put, HasRoom, Printed};

use search::Match;
use text::Output;

/// The number of a digit, "0 to 9 or A to F": the match on two ranges that document 01 names.
fn digit(byte: u8) -> Option<u64>
    ensures number { result ≡ cond (is_digit byte) (Some (digit_number byte)) None }
    ensures below { IfSome result (λ n. n < 16) }
{
    match byte {
        b'0'..=b'9' => Some((byte - b'0') as u64),
        b'A'..=b'F' => Some((byte - b'A' + 10) as u64),
        _ => None,
    }
}

/// The word of a line, "four digits", the first one the highest.
fn word(line: &[u8]) -> Option<u64>
    ensures { result ≡ cond (is_word line.now) (Some (number_of line.now)) None }
{
    let [a, b, c, d] = line else {
        return None;
    };
    Some(digit(*a)? * 4096 + digit(*b)? * 256 + digit(*c)? * 16 + digit(*d)?)
}

/// The search for a word among the codes of T16H5, which is family 0.
fn search_t16h5(bits: u64) -> Option<Match>
    ensures { paper_match result ≡ searched bits }
{
    let family = tag_families::family(0);
    let codes = tag_families::codes_of(0);
    search::best_tag(bits, family.hamming_distance, codes, family.edge).found
}

/// Puts what follows a word, id and turn or `none`, and ends the line.
fn put_answer(bits: u64, output: &mut Output)
    requires { HasRoom output.old 7 }
    ensures { Put (after_word (searched bits) ++ (line_feed ∷ [])) output.old output.new }
{
    let Some(tag) = search_t16h5(bits) else {
        output.put(b" none\n");
        return;
    };
    output.put_number(tag.id as u8);
    output.put_number(tag.turn);
    output.put_byte(b'\n');
}

/// Puts what a line prints.
fn put_line(line: &[u8], output: &mut Output)
    requires { HasRoom output.old 4 × HasRoom output.old (4 * length line.now) }
    ensures { Put (printed_line line.now) output.old output.new }
{
    let Some(bits) = word(line) else {
        output.put(b"bad\n");
        return;
    };
    output.put(line);
    put_answer(bits, output);
}

/// Prints `input` into `out`, and gives the number of bytes printed. No line prints more than four bytes for each byte
/// that it has, its line feed or the end counted: `bad` and a line feed for an empty line is the most.
pub fn read_lines(input: &[u8], out: &mut [u8]) -> usize
    requires { 4 * length input.now ≤ length out.old }
    ensures { Printed (readbits input.now) out.old out.new result }
{
    let mut output = Output { bytes: out, at: 0 };
    // A line comes with its line feed; nothing after the last line feed makes a line.
    for line in input.split_inclusive(|byte| *byte == b'\n') {
        put_line(line.strip_suffix(b"\n").unwrap_or(line), &mut output);
    }
    output.at
}
