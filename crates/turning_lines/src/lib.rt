//! What `turning` prints: the tables of `word`, worked out anew from the formula.
#![tactic(auto)]

ghost use Rattle.std.specs.Prelude.{◌≡◌, ◌*◌, ◌≤◌, ◌<◌, length};
ghost use Rattle.word.specs.Word.{source};
ghost use Rattle.text.specs.Put.{Put, HasRoom};
ghost use Rattle.turning_lines.specs.Turning.{line, turning};

use text::Output;

/// The place that the bit at place `k` of a turned square comes from.
fn source_of(edge: u64, k: u64) -> u8
    requires { (0 < edge) × (edge ≤ 8) × (k < edge * edge) }
    ensures { (result ≡ source edge k) × (result < 64) }
{
    word::source_place(edge, k / edge, k % edge) as u8
}

/// Puts the line of an edge.
fn put_line(edge: u64, output: &mut Output)
    requires { (0 < edge) × (edge ≤ 8) × HasRoom output.old (length (line edge)) }
    ensures { Put (line edge) output.old output.new }
{
    output.put_decimal(source_of(edge, 0));
    for k in 1..edge * edge {
        output.put_number(source_of(edge, k));
    }
    output.put_byte(b'\n');
}

/// Puts the three lines into a buffer that has just their bytes.
fn put_lines(text: &mut [u8])
    requires { length text.old ≡ 201 }
    ensures { text.new ≡ turning }
{
    let mut output = Output { bytes: text, at: 0 };
    put_line(4, &mut output);
    put_line(5, &mut output);
    put_line(6, &mut output);
}

/// The whole text, which has 201 bytes.
pub fn table_lines() -> [u8; 201]
    ensures { result ≡ turning }
{
    let mut text = [0u8; 201];
    put_lines(&mut text);
    text
}
