// What C calls. `include/imdagluz.h` declares it, with every promise in a comment. A slice is a pointer and a length on C's side.
#![tactic(auto)]

pub mod order;
mod renumber;
pub mod texts;

ghost use Rattle.std.specs.Prelude.{◌≡◌};
ghost use Rattle.delta_bytes.specs.Delta.{delta_number, delta_bytes};
ghost use Rattle.file_words.specs.Read.{file_seen, read_seen};
ghost use Rattle.file_words.specs.Write.{bytes_seen, write_seen};
ghost use Rattle.capi.specs.Renumber.{seen, record_of, renumber_seen};
ghost use Rattle.capi.specs.Expand.{lists_seen, expand_seen};

use circuit::{CircuitLists, CircuitRoom};

// One delta at a place: 0, with the value, low byte first, in the first eight lent bytes and the count of bytes used in the ninth; or a
// refusal's number, and the lent bytes as they were. Fewer than nine lent bytes is refusal 3, tested first.
#[unsafe(no_mangle)]
pub extern "C" fn imdagluz_delta(s: &[u8], at: usize, reference: u64, out: &mut [u8]) -> u32
    ensures { (result ≡ delta_number s.now at reference out.old)
        × (out.new ≡ delta_bytes s.now at reference out.old) }
{
    delta_bytes::put_delta(s, at, reference, out)
}

// Renumbers a circuit as `aig::renumber` does: 0, or a refusal's number. The answer goes to the first three words of `answer`: the literal at fault, the
// gates made, the new largest variable, each 0 where there is none. Fewer than three words is refusal 3, tested first, and writes nothing; then
// counts that are not five, or flags over 7 (trim 1, hash 2, fold 4), are refusal 2.
#[unsafe(no_mangle)]
pub extern "C" fn imdagluz_renumber(
    top: u32,
    counts: &[u32],
    flags: u32,
    inputs: &[u32],
    states: &[u32],
    nexts: &[u32],
    resets: &[u32],
    gates: &[u32],
    roots: &[u32],
    map: &mut [u32],
    next_images: &mut [u32],
    reset_images: &mut [u32],
    root_images: &mut [u32],
    gates_out: &mut [u32],
    scratch: &mut [u32],
    answer: &mut [u32],
) -> u32
    ensures { seen (record {
      number = result;
      map = map.new;
      next_images = next_images.new;
      reset_images = reset_images.new;
      root_images = root_images.new;
      gates_out = gates_out.new;
      scratch = scratch.new;
      words = answer.new;
    }) ≡ renumber_seen counts.now flags (record {
      circuit = record_of top counts.now flags;
      inputs = inputs.now;
      states = states.now;
      nexts = nexts.now;
      resets = resets.now;
      gates = gates.now;
      roots = roots.now;
      map = map.old;
      next_images = next_images.old;
      reset_images = reset_images.old;
      root_images = root_images.old;
      gates_out = gates_out.old;
      scratch = scratch.old;
    }) answer.old }
{
    let first = renumber::refused_first(counts, flags, answer);
    if first != 0 {
        return first;
    }
    let lists = CircuitLists {
        inputs,
        states,
        nexts,
        resets,
        gates,
        roots,
    };
    let room = CircuitRoom {
        map,
        next_images,
        reset_images,
        root_images,
        gates_out,
        scratch,
    };
    let said = aig::renumber(renumber::record_of(top, counts, flags), &lists, room);
    renumber::put_answer(said, answer)
}

// Reads a binary AIGER file as `binary::read` does: 0, or a refusal's number. The answer goes to the first eleven words of `answer`: the bytes used, or the
// place of the refusal; then, 0 for a refusal, M = I + L + A, I, L, A, the five root counts in walk order, the number of justice sets. Fewer than eleven
// words is refusal 3, tested first, and writes nothing; every other refusal leaves each cell of the five lists 0.
#[unsafe(no_mangle)]
pub extern "C" fn imdagluz_read_aig(
    bytes: &[u8],
    nexts: &mut [u32],
    resets: &mut [u32],
    gates: &mut [u32],
    sizes: &mut [u32],
    roots: &mut [u32],
    answer: &mut [u64],
) -> u32
    ensures { file_seen (record {
      number = result;
      nexts = nexts.new;
      resets = resets.new;
      gates = gates.new;
      sizes = sizes.new;
      roots = roots.new;
      words = answer.new;
    }) ≡ read_seen bytes.now (record {
      nexts = nexts.old;
      resets = resets.old;
      gates = gates.old;
      sizes = sizes.old;
      roots = roots.old;
    }) answer.old }
{
    file_words::read(bytes, nexts, resets, gates, sizes, roots, answer)
}

// Of an ordered circuit with I inputs, L latches and gates two words each the lists that renumbering takes, as `ordered::expand` makes them: 0, or a refusal's
// number, and then nothing is written.
#[unsafe(no_mangle)]
pub extern "C" fn imdagluz_expand(
    inputs: u32,
    latches: u32,
    gates: &[u32],
    input_codes: &mut [u32],
    state_codes: &mut [u32],
    triples: &mut [u32],
) -> u32
    ensures { lists_seen (record {
      number = result;
      input_codes = input_codes.new;
      state_codes = state_codes.new;
      triples = triples.new;
    }) ≡ expand_seen inputs latches gates.now (record {
      inputs = input_codes.old;
      states = state_codes.old;
      triples = triples.old;
    }) }
{
    let said = ordered::expand(
        inputs as usize,
        latches as usize,
        gates,
        input_codes,
        state_codes,
        triples,
    );
    ordered::number(said)
}

// Writes an ordered circuit as a binary AIGER file, as `binary::write` does: 0, or a refusal's number. The answer goes to the first two words of `answer`: the
// literal at fault, and the bytes written or, where the lent ones are too few, those needed; each 0 where there is none. Fewer than two words is refusal 3,
// tested first, and writes nothing; then counts that are not five are refusal 2. No refusal writes a byte.
#[unsafe(no_mangle)]
pub extern "C" fn imdagluz_write_aig(
    inputs: u32,
    counts: &[u32],
    nexts: &[u32],
    resets: &[u32],
    gates: &[u32],
    sizes: &[u32],
    roots: &[u32],
    out: &mut [u8],
    answer: &mut [u64],
) -> u32
    ensures { bytes_seen (record {
      number = result;
      bytes = out.new;
      words = answer.new;
    }) ≡ write_seen (record {
      inputs = inputs;
      counts = counts.now;
      nexts = nexts.now;
      resets = resets.now;
      gates = gates.now;
      sizes = sizes.now;
      roots = roots.now;
    }) out.old answer.old }
{
    file_words::write(
        inputs, counts, nexts, resets, gates, sizes, roots, out, answer,
    )
}
