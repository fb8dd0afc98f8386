// Intake as one call: the bytes of a binary AIGER file in, the bytes of the ordered file out.
#![tactic(auto)]

ghost use Rattle.std.specs.Prelude.{◌≡◌, ◌*◌, ◌≤◌, length, take};
ghost use Rattle.circuit.specs.Outcome.{limit, total, left, outcome};
ghost use Rattle.binary.specs.Way.{top_of};
ghost use Rattle.binary.specs.Write.{wrote, writing};
ghost use Rattle.intake.specs.declared.OrderFault.TheVariants.{Unread};
ghost use Rattle.intake.specs.Order.{refusal_of, Held, Coded, Filled, record_of, handed, leaving, renumbering, seen, onwards, ordering};

use binary::{FileRead, Unwritten};
use checks::sum;
use circuit::{CircuitLists, CircuitRecord, CircuitRoom, Refusal, Summary};
use lent::words::{counted, wide};
use lines::Broken;
use lit::Var;
use ordered::Unexpanded;
use ordered::given::Shape;

// A file that is ordered: the numbers of the file that was read, the gates made, and the bytes written.
#[derive(Clone, Copy)]
pub struct Ordered {
    pub read: FileRead,
    pub made: u32,
    pub written: usize,
}

// Why no file is written: the file's own refusal, with its place; or renumbering's, of the file that was read; or that of writing so many gates made, with how
// many bytes are needed where the lent ones are too few.
#[derive(Clone, Copy)]
pub enum OrderFault {
    Unread(Broken),
    Unordered {
        why: Refusal,
        read: FileRead,
    },
    Unstored {
        why: Unwritten,
        read: FileRead,
        made: u32,
    },
}

impl From<Broken> for OrderFault {
    ghost from_gives = { λ why fault. fault ≡ Unread why };

    fn from(why: Broken) -> OrderFault {
        OrderFault::Unread(why)
    }
}

// The circuit but for its lists. The flags are trim 1, hash 2, fold 4.
#[tactic(auto, unfolding(lit::specs::Code::is_odd))]
fn record_of(read: FileRead, flags: u32) -> CircuitRecord
    requires { top_of read ≤ limit }
    ensures { result ≡ record_of read flags }
{
    let counts = read.counts;
    CircuitRecord {
        top: Var::from_index(read.inputs + read.latches + read.gates),
        counts,
        trim: flags % 2 == 1,
        hash: flags / 2 % 2 == 1,
        fold: flags / 4 % 2 == 1,
    }
}

// Renumbers the circuit that was read, its codes expanded: the fronts of the lists are lent.
fn numbered(
    read: FileRead,
    flags: u32,
    nexts: &[u32],
    resets: &[u32],
    roots: &[u32],
    input_codes: &[u32],
    state_codes: &[u32],
    triples: &[u32],
    map: &mut [u32],
    next_images: &mut [u32],
    reset_images: &mut [u32],
    root_images: &mut [u32],
    gates_out: &mut [u32],
    scratch: &mut [u32],
) -> Result<Summary, Refusal>
    requires { (Held read (record { nexts = nexts.now; resets = resets.now; roots = roots.now }))
        × (Coded read (record { inputs = input_codes.now; states = state_codes.now; triples = triples.now })) }
    ensures { left (record {
      answer = result;
      map = map.new;
      next_images = next_images.new;
      reset_images = reset_images.new;
      root_images = root_images.new;
      gates_out = gates_out.new;
      scratch = scratch.new;
    }) ≡ outcome (handed read flags (record {
      nexts = nexts.now;
      resets = resets.now;
      roots = roots.now;
    }) (record {
      inputs = input_codes.now;
      states = state_codes.now;
      triples = triples.now;
    }) (record {
      map = map.old;
      next_images = next_images.old;
      reset_images = reset_images.old;
      root_images = root_images.old;
      gates_out = gates_out.old;
      scratch = scratch.old;
    })) }
{
    let counts = read.counts;
    let i = wide(read.inputs);
    let l = wide(read.latches);
    let g = counted(read.gates);
    let r = sum(counts);
    let lists = CircuitLists {
        inputs: &input_codes[..i],
        states: &state_codes[..l],
        nexts: &nexts[..l],
        resets: &resets[..l],
        gates: &triples[..3 * g],
        roots: &roots[..r],
    };
    let room = CircuitRoom {
        map,
        next_images,
        reset_images,
        root_images,
        gates_out,
        scratch,
    };
    aig::renumber(record_of(read, flags), &lists, room)
}

// What is not expanded is refused by the reason of that name.
fn refusal_of(why: Unexpanded) -> Refusal
    ensures { result ≡ refusal_of why }
{
    match why {
        Unexpanded::TooBig => Refusal::TooBig,
        Unexpanded::Misshapen => Refusal::Misshapen,
        Unexpanded::Short => Refusal::Short,
    }
}

// Expands the gates that were read, and renumbers the circuit.
fn renumbered(
    read: FileRead,
    flags: u32,
    nexts: &[u32],
    resets: &[u32],
    gates: &[u32],
    roots: &[u32],
    input_codes: &mut [u32],
    state_codes: &mut [u32],
    triples: &mut [u32],
    map: &mut [u32],
    next_images: &mut [u32],
    reset_images: &mut [u32],
    root_images: &mut [u32],
    gates_out: &mut [u32],
    scratch: &mut [u32],
) -> Result<Summary, Refusal>
    requires { (Held read (record { nexts = nexts.now; resets = resets.now; roots = roots.now })) × (2 * read.gates ≤ length gates.now) }
    ensures { leaving (record {
      inputs = input_codes.new;
      states = state_codes.new;
      triples = triples.new;
    }) (record {
      answer = result;
      map = map.new;
      next_images = next_images.new;
      reset_images = reset_images.new;
      root_images = root_images.new;
      gates_out = gates_out.new;
      scratch = scratch.new;
    }) ≡ renumbering read flags gates.now (record {
      nexts = nexts.now;
      resets = resets.now;
      roots = roots.now;
    }) (record {
      inputs = input_codes.old;
      states = state_codes.old;
      triples = triples.old;
    }) (record {
      map = map.old;
      next_images = next_images.old;
      reset_images = reset_images.old;
      root_images = root_images.old;
      gates_out = gates_out.old;
      scratch = scratch.old;
    }) }
{
    let g = counted(read.gates);
    ordered::expand(
        wide(read.inputs),
        wide(read.latches),
        &gates[..2 * g],
        input_codes,
        state_codes,
        triples,
    )
    .map_err(refusal_of)?;
    numbered(
        read,
        flags,
        nexts,
        resets,
        roots,
        input_codes,
        state_codes,
        triples,
        map,
        next_images,
        reset_images,
        root_images,
        gates_out,
        scratch,
    )
}

// Writes what was made, so many gates, with the file's justice sizes.
fn stored(
    read: FileRead,
    made: u32,
    sizes: &[u32],
    next_images: &[u32],
    reset_images: &[u32],
    root_images: &[u32],
    gates_out: &[u32],
    out: &mut [u8],
) -> Result<usize, Unwritten>
    requires { Filled read made sizes.now next_images.now reset_images.now root_images.now gates_out.now }
    ensures { wrote result out.new ≡ writing (record {
      inputs = read.inputs;
      counts = read.counts;
      nexts = take read.latches next_images.now;
      resets = take read.latches reset_images.now;
      gates = take (2 * made) gates_out.now;
      sizes = take read.sets sizes.now;
      roots = take (total read.counts) root_images.now;
    }) out.old }
{
    let inputs = read.inputs;
    let counts = read.counts;
    let l = wide(read.latches);
    let g = counted(made);
    let j = wide(read.sets);
    let r = sum(counts);
    binary::write(
        Shape { inputs, counts },
        &next_images[..l],
        &reset_images[..l],
        &gates_out[..2 * g],
        &sizes[..j],
        &root_images[..r],
        out,
    )
}

// A file that was taken: flags over 7 are refused by 2; else it is renumbered, and what was made is written.
fn onward(
    read: FileRead,
    flags: u32,
    nexts: &[u32],
    resets: &[u32],
    gates: &[u32],
    sizes: &[u32],
    roots: &[u32],
    input_codes: &mut [u32],
    state_codes: &mut [u32],
    triples: &mut [u32],
    map: &mut [u32],
    next_images: &mut [u32],
    reset_images: &mut [u32],
    root_images: &mut [u32],
    gates_out: &mut [u32],
    scratch: &mut [u32],
    out: &mut [u8],
) -> Result<Ordered, OrderFault>
    requires { (Held read (record { nexts = nexts.now; resets = resets.now; roots = roots.now })) × (2 * read.gates ≤ length gates.now)
        × (read.sets ≤ length sizes.now) }
    ensures { seen result (record {
      file = record {
        nexts = nexts.now;
        resets = resets.now;
        gates = gates.now;
        sizes = sizes.now;
        roots = roots.now;
      };
      codes = record {
        inputs = input_codes.new;
        states = state_codes.new;
        triples = triples.new;
      };
      images = record {
        map = map.new;
        next_images = next_images.new;
        reset_images = reset_images.new;
        root_images = root_images.new;
        gates_out = gates_out.new;
        scratch = scratch.new;
      };
      bytes = out.new;
    }) ≡ onwards read flags (record {
      file = record {
        nexts = nexts.now;
        resets = resets.now;
        gates = gates.now;
        sizes = sizes.now;
        roots = roots.now;
      };
      codes = record {
        inputs = input_codes.old;
        states = state_codes.old;
        triples = triples.old;
      };
      images = record {
        map = map.old;
        next_images = next_images.old;
        reset_images = reset_images.old;
        root_images = root_images.old;
        gates_out = gates_out.old;
        scratch = scratch.old;
      };
      bytes = out.old;
    }) }
{
    if 7 < flags {
        return Err(OrderFault::Unordered {
            why: Refusal::Misshapen,
            read,
        });
    }
    let summary = renumbered(
        read,
        flags,
        nexts,
        resets,
        gates,
        roots,
        input_codes,
        state_codes,
        triples,
        map,
        next_images,
        reset_images,
        root_images,
        gates_out,
        scratch,
    )
    .map_err(|why| OrderFault::Unordered { why, read })?;
    let made = summary.made;
    let written = stored(
        read,
        made,
        sizes,
        next_images,
        reset_images,
        root_images,
        gates_out,
        out,
    )
    .map_err(|why| OrderFault::Unstored { why, read, made })?;
    Ok(Ordered {
        read,
        made,
        written,
    })
}

// Reads a binary file, renumbers its circuit with the flags (trim 1, hash 2, fold 4) and writes the ordered file. The file's own refusals come first, with their
// places; then flags over 7, which are 2, and 3 for a list behind the file's that is too short; then 3 where the lent bytes are too few, with how many are
// needed. Nothing else can be refused. Each step leaves what it promises in its own lists: the file's are all 0 where the file is refused.
pub fn order(
    bytes: &[u8],
    flags: u32,
    nexts: &mut [u32],
    resets: &mut [u32],
    gates: &mut [u32],
    sizes: &mut [u32],
    roots: &mut [u32],
    input_codes: &mut [u32],
    state_codes: &mut [u32],
    triples: &mut [u32],
    map: &mut [u32],
    next_images: &mut [u32],
    reset_images: &mut [u32],
    root_images: &mut [u32],
    gates_out: &mut [u32],
    scratch: &mut [u32],
    out: &mut [u8],
) -> Result<Ordered, OrderFault>
    ensures { seen result (record {
      file = record {
        nexts = nexts.new;
        resets = resets.new;
        gates = gates.new;
        sizes = sizes.new;
        roots = roots.new;
      };
      codes = record {
        inputs = input_codes.new;
        states = state_codes.new;
        triples = triples.new;
      };
      images = record {
        map = map.new;
        next_images = next_images.new;
        reset_images = reset_images.new;
        root_images = root_images.new;
        gates_out = gates_out.new;
        scratch = scratch.new;
      };
      bytes = out.new;
    }) ≡ ordering bytes.now flags (record {
      file = record {
        nexts = nexts.old;
        resets = resets.old;
        gates = gates.old;
        sizes = sizes.old;
        roots = roots.old;
      };
      codes = record {
        inputs = input_codes.old;
        states = state_codes.old;
        triples = triples.old;
      };
      images = record {
        map = map.old;
        next_images = next_images.old;
        reset_images = reset_images.old;
        root_images = root_images.old;
        gates_out = gates_out.old;
        scratch = scratch.old;
      };
      bytes = out.old;
    }) }
{
    let read = binary::read(bytes, nexts, resets, gates, sizes, roots)?;
    onward(
        read,
        flags,
        nexts,
        resets,
        gates,
        sizes,
        roots,
        input_codes,
        state_codes,
        triples,
        map,
        next_images,
        reset_images,
        root_images,
        gates_out,
        scratch,
        out,
    )
}
