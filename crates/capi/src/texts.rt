// What C calls for files in the text form.
ghost use Rattle.std.specs.Prelude.{◌≡◌};
ghost use Rattle.file_words.specs.Write.{bytes_seen};
ghost use Rattle.file_words.specs.Text.{text_seen, read_text_seen, write_text_seen};

// Reads a text AIGER file as `ascii::read` does: 0, or a refusal's number. The answer words are those of `imdagluz_read_aig`, but that M is the header's, which
// may be above I + L + A. Fewer than eleven words is refusal 3, tested first, and writes nothing; every other refusal leaves each cell of the seven lists 0.
#[unsafe(no_mangle)]
pub extern "C" fn imdagluz_read_aag(
    bytes: &[u8],
    inputs: &mut [u32],
    states: &mut [u32],
    nexts: &mut [u32],
    resets: &mut [u32],
    gates: &mut [u32],
    sizes: &mut [u32],
    roots: &mut [u32],
    answer: &mut [u64],
) -> u32
    ensures { text_seen (record {
      number = result;
      inputs = inputs.new;
      states = states.new;
      nexts = nexts.new;
      resets = resets.new;
      gates = gates.new;
      sizes = sizes.new;
      roots = roots.new;
      words = answer.new;
    }) ≡ read_text_seen bytes.now (record {
      inputs = inputs.old;
      states = states.old;
      nexts = nexts.old;
      resets = resets.old;
      gates = gates.old;
      sizes = sizes.old;
      roots = roots.old;
    }) answer.old }
{
    file_words::read_text(
        bytes, inputs, states, nexts, resets, gates, sizes, roots, answer,
    )
}

// Writes an ordered circuit as a text AIGER file, as `ascii::write` does: 0, or a refusal's number; answer words and refusals as of `imdagluz_write_aig`.
#[unsafe(no_mangle)]
pub extern "C" fn imdagluz_write_aag(
    inputs: u32,
    counts: &[u32],
    nexts: &[u32],
    resets: &[u32],
    gates: &[u32],
    sizes: &[u32],
    roots: &[u32],
    out: &mut [u8],
    answer: &mut [u64],
) -> u32
    ensures { bytes_seen (record {
      number = result;
      bytes = out.new;
      words = answer.new;
    }) ≡ write_text_seen (record {
      inputs = inputs;
      counts = counts.now;
      nexts = nexts.now;
      resets = resets.now;
      gates = gates.now;
      sizes = sizes.now;
      roots = roots.now;
    }) out.old answer.old }
{
    file_words::write_text(
        inputs, counts, nexts, resets, gates, sizes, roots, out, answer,
    )
}
