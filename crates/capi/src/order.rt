// What C calls for intake as one call.
ghost use Rattle.std.specs.Prelude.{◌≡◌};
ghost use Rattle.intake_words.specs.Order.{order_seen, ordering_seen};

// Orders a binary AIGER file as `intake::order` does: 0, or a refusal's number. The answer words are those of `intake_words::order`. Fewer than fourteen words is refusal
// 3, tested first, and writes nothing at all.
#[unsafe(no_mangle)]
pub extern "C" fn imdagluz_order(
    bytes: &[u8],
    flags: u32,
    nexts: &mut [u32],
    resets: &mut [u32],
    gates: &mut [u32],
    sizes: &mut [u32],
    roots: &mut [u32],
    input_codes: &mut [u32],
    state_codes: &mut [u32],
    triples: &mut [u32],
    map: &mut [u32],
    next_images: &mut [u32],
    reset_images: &mut [u32],
    root_images: &mut [u32],
    gates_out: &mut [u32],
    scratch: &mut [u32],
    out: &mut [u8],
    answer: &mut [u64],
) -> u32
    ensures { order_seen (record {
      number = result;
      lists = record {
        file = record {
          nexts = nexts.new;
          resets = resets.new;
          gates = gates.new;
          sizes = sizes.new;
          roots = roots.new;
        };
        codes = record {
          inputs = input_codes.new;
          states = state_codes.new;
          triples = triples.new;
        };
        images = record {
          map = map.new;
          next_images = next_images.new;
          reset_images = reset_images.new;
          root_images = root_images.new;
          gates_out = gates_out.new;
          scratch = scratch.new;
        };
        bytes = out.new;
      };
      words = answer.new;
    }) ≡ ordering_seen bytes.now flags (record {
      file = record {
        nexts = nexts.old;
        resets = resets.old;
        gates = gates.old;
        sizes = sizes.old;
        roots = roots.old;
      };
      codes = record {
        inputs = input_codes.old;
        states = state_codes.old;
        triples = triples.old;
      };
      images = record {
        map = map.old;
        next_images = next_images.old;
        reset_images = reset_images.old;
        root_images = root_images.old;
        gates_out = gates_out.old;
        scratch = scratch.old;
      };
      bytes = out.old;
    }) answer.old }
{
    intake_words::order(
        bytes,
        flags,
        nexts,
        resets,
        gates,
        sizes,
        roots,
        input_codes,
        state_codes,
        triples,
        map,
        next_images,
        reset_images,
        root_images,
        gates_out,
        scratch,
        out,
        answer,
    )
}
