// An AIGER file read and written for C, in either form: what a reader answers as a number and eleven words, a writer as a number and two.
#![tactic(auto)]

mod answered;
mod written;

ghost use Rattle.std.specs.Prelude.{◌≡◌};
ghost use Rattle.file_words.specs.Read.{file_seen, read_seen};
ghost use Rattle.file_words.specs.Write.{bytes_seen, write_seen};
ghost use Rattle.file_words.specs.Text.{text_seen, read_text_seen, write_text_seen};

pub use answered::{top_of, words_of};

// Reads a binary file as `binary::read` does: 0, or a refusal's number. The first eleven words of `answer` are the bytes used, or the place of the
// refusal; then, 0 for a refusal, M = I + L + A, I, L, A, the five root counts in walk order, and the number of justice sets. Fewer than eleven words is
// refusal 3, tested first, and writes nothing at all.
#[tactic(auto, unfolding(crate::specs::Read::read_seen))]
pub fn read(
    bytes: &[u8],
    nexts: &mut [u32],
    resets: &mut [u32],
    gates: &mut [u32],
    sizes: &mut [u32],
    roots: &mut [u32],
    answer: &mut [u64],
) -> u32
    ensures { file_seen (record {
      number = result;
      nexts = nexts.new;
      resets = resets.new;
      gates = gates.new;
      sizes = sizes.new;
      roots = roots.new;
      words = answer.new;
    }) ≡ read_seen bytes.now (record {
      nexts = nexts.old;
      resets = resets.old;
      gates = gates.old;
      sizes = sizes.old;
      roots = roots.old;
    }) answer.old }
{
    if answered::is_short(answer) {
        return 3;
    }
    let said = binary::read(bytes, nexts, resets, gates, sizes, roots);
    answered::put_words(said, answered::top_of(said), answer);
    answered::number(said)
}

// Reads a text file as `ascii::read` does, with the words of `read`, but that M is the header's, which may be above I + L + A.
#[tactic(auto, unfolding(crate::specs::Text::read_text_seen))]
pub fn read_text(
    bytes: &[u8],
    inputs: &mut [u32],
    states: &mut [u32],
    nexts: &mut [u32],
    resets: &mut [u32],
    gates: &mut [u32],
    sizes: &mut [u32],
    roots: &mut [u32],
    answer: &mut [u64],
) -> u32
    ensures { text_seen (record {
      number = result;
      inputs = inputs.new;
      states = states.new;
      nexts = nexts.new;
      resets = resets.new;
      gates = gates.new;
      sizes = sizes.new;
      roots = roots.new;
      words = answer.new;
    }) ≡ read_text_seen bytes.now (record {
      inputs = inputs.old;
      states = states.old;
      nexts = nexts.old;
      resets = resets.old;
      gates = gates.old;
      sizes = sizes.old;
      roots = roots.old;
    }) answer.old }
{
    if answered::is_short(answer) {
        return 3;
    }
    let said = ascii::read(bytes, inputs, states, nexts, resets, gates, sizes, roots);
    let file = answered::file_read(said);
    answered::put_words(file, answered::text_top(said), answer);
    answered::number(file)
}

// Writes an ordered circuit as `binary::write` does: 0, or a refusal's number. The first two words of `answer` are the literal at fault, and the bytes
// written or, where the lent ones are too few, those needed; each 0 where there is none. Fewer than two words is refusal 3, tested first, and writes nothing
// at all; then counts that are not five are refusal 2. No refusal writes a byte.
#[tactic(auto, unfolding(crate::specs::Write::seen_by, crate::specs::Write::first_number, crate::specs::Write::first_words))]
pub fn write(
    inputs: u32,
    counts: &[u32],
    nexts: &[u32],
    resets: &[u32],
    gates: &[u32],
    sizes: &[u32],
    roots: &[u32],
    out: &mut [u8],
    answer: &mut [u64],
) -> u32
    ensures { bytes_seen (record {
      number = result;
      bytes = out.new;
      words = answer.new;
    }) ≡ write_seen (record {
      inputs = inputs;
      counts = counts.now;
      nexts = nexts.now;
      resets = resets.now;
      gates = gates.now;
      sizes = sizes.now;
      roots = roots.now;
    }) out.old answer.old }
{
    let first = written::refused_first(counts, answer);
    if first != 0 {
        return first;
    }
    let shape = written::shape_of(inputs, counts);
    let said = binary::write(shape, nexts, resets, gates, sizes, roots, out);
    written::put_answer(said, answer)
}

// Writes an ordered circuit as `ascii::write` does, with the numbers and words of `write`.
#[tactic(auto, unfolding(crate::specs::Write::seen_by, crate::specs::Write::first_number, crate::specs::Write::first_words))]
pub fn write_text(
    inputs: u32,
    counts: &[u32],
    nexts: &[u32],
    resets: &[u32],
    gates: &[u32],
    sizes: &[u32],
    roots: &[u32],
    out: &mut [u8],
    answer: &mut [u64],
) -> u32
    ensures { bytes_seen (record {
      number = result;
      bytes = out.new;
      words = answer.new;
    }) ≡ write_text_seen (record {
      inputs = inputs;
      counts = counts.now;
      nexts = nexts.now;
      resets = resets.now;
      gates = gates.now;
      sizes = sizes.now;
      roots = roots.now;
    }) out.old answer.old }
{
    let first = written::refused_first(counts, answer);
    if first != 0 {
        return first;
    }
    let shape = written::shape_of(inputs, counts);
    let said = ascii::write(shape, nexts, resets, gates, sizes, roots, out);
    written::put_answer(said, answer)
}
