// The report's text, put into lent bytes: the lines, and what is printed of an answer.
#![tactic(auto)]

ghost use Rattle.std.specs.Prelude.{◌≡◌, [], ◌∷◌, ◌++◌, ◌+◌, ◌^◌, ◌<◌, length};
ghost use Rattle.token.specs.Format.{digits_of};
ghost use Rattle.text.specs.Put.{Puts};
ghost use Rattle.circuit.specs.Ordered.{gates_from};
ghost use Rattle.circuit.specs.Outcome.{pairs_of};
ghost use Rattle.sheet_lines.specs.Lines.{refused_line, ordered_line, gate_line, image_line, each};
ghost use Rattle.sheet_lines.specs.Text.{refused_text, ordered_text};

use circuit::{Refusal, Summary};

// A number in decimal, and a byte after it.
fn put_number(out: &mut [u8], at: usize, v: u64, after: u8) -> usize
    ensures { Puts out.old at (digits_of v ++ (after ∷ [])) out.new result }
{
    let end = text::put_decimal(out, at, v);
    text::put(out, end, after)
}

// The line of a refusal, at the start.
pub fn put_refused(out: &mut [u8], number: u64, beside: u64) -> usize
    ensures { Puts out.old 0 (refused_line number beside) out.new result }
{
    let after_word = text::put_bytes(out, 0, b"refused ");
    let after_number = put_number(out, after_word, number, b' ');
    put_number(out, after_number, beside, b'\n')
}

// The first line of a success, at the start.
fn put_ordered(out: &mut [u8], top: u64, inputs: u64, latches: u64, made: u64) -> usize
    ensures { Puts out.old 0 (ordered_line top inputs latches made) out.new result }
{
    let after_word = text::put_bytes(out, 0, b"ordered ");
    let after_top = put_number(out, after_word, top, b' ');
    let after_inputs = put_number(out, after_top, inputs, b' ');
    let after_latches = put_number(out, after_inputs, latches, b' ');
    put_number(out, after_latches, made, b'\n')
}

fn put_gate(out: &mut [u8], at: usize, output: u64, larger: u64, smaller: u64) -> usize
    ensures { Puts out.old at (gate_line (record { output = output; first = larger; second = smaller })) out.new result }
{
    let after_output = put_number(out, at, output, b' ');
    let after_larger = put_number(out, after_output, larger, b' ');
    put_number(out, after_larger, smaller, b'\n')
}

fn put_image(out: &mut [u8], at: usize, letter: u8, image: u64) -> usize
    ensures { Puts out.old at (image_line letter image) out.new result }
{
    let after_letter = text::put(out, at, letter);
    let after_space = text::put(out, after_letter, b' ');
    put_number(out, after_space, image, b'\n')
}

// A line for each gate of a flat list, two words a gate; the first one's output is given, and the others follow it.
fn put_gates(out: &mut [u8], at: usize, first: u64, gates: &[u32]) -> usize
    requires { first + length gates.now < 2 ^ 64 }
    ensures { Puts out.old at (each gate_line (gates_from first (pairs_of gates.now))) out.new result }
{
    let mut place = at;
    // By index: a gate is two words side by side, which pieces of two words would still be read by index for.
    for j in 0..gates.len() / 2 {
        let output = first + 2 * (j as u64);
        place = put_gate(
            out,
            place,
            output,
            gates[2 * j] as u64,
            gates[2 * j + 1] as u64,
        );
    }
    place
}

// A line for each image of a list.
fn put_images(out: &mut [u8], at: usize, letter: u8, images: &[u32]) -> usize
    ensures { Puts out.old at (each (image_line letter) images.now) out.new result }
{
    let mut place = at;
    for image in images {
        place = put_image(out, place, letter, *image as u64);
    }
    place
}

// Prints a success: the first line, then a line for each gate made, two words a gate, for each next state's image and for each root's.
pub fn print_ordered(
    summary: Summary,
    inputs: u32,
    nexts: &[u32],
    gates: &[u32],
    roots: &[u32],
    out: &mut [u8],
) -> usize
    ensures { Puts out.old 0 (ordered_text summary inputs nexts.now (pairs_of gates.now) roots.now)
        out.new result }
{
    let latches = nexts.len() as u64;
    let top = summary.top;
    let after_line = put_ordered(
        out,
        top.index() as u64,
        inputs as u64,
        latches,
        summary.made as u64,
    );
    let first = 2 * (inputs as u64 + latches + 1);
    let after_gates = put_gates(out, after_line, first, gates);
    let after_nexts = put_images(out, after_gates, b'n', nexts);
    put_images(out, after_nexts, b'r', roots)
}

// Prints a refusal of renumbering, with the literal for 4 to 8, and 0 for 1 to 3.
pub fn print_refused(why: Refusal, out: &mut [u8]) -> usize
    ensures { Puts out.old 0 (refused_text why) out.new result }
{
    let number = refusals::number(why);
    let l = refusals::literal(why);
    put_refused(out, number as u64, l.code() as u64)
}
