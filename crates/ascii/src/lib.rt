// Reading a text AIGER file into lent lists, and writing one into lent bytes.
#![tactic(auto)]

mod put;

ghost use Rattle.std.specs.Prelude.{◌≡◌, ◌+◌, ◌*◌, ◌≤◌, length};
ghost use Rattle.circuit.specs.Outcome.{limit};
ghost use Rattle.lines.specs.Promise.{ended};
ghost use Rattle.lines.specs.Limits.{Within};
ghost use Rattle.ordered.specs.Given.{Given};
ghost use Rattle.binary.specs.Write.{file_in, wrote, written_to};
ghost use Rattle.ascii.specs.Text.{room_for, sized_at, lists_at, body_at, read_text};
ghost use Rattle.ascii.specs.Promise.{StoresText, StoresRead, Roomy, room_of, lists_of, cleared, seen, outcome};
ghost use Rattle.ascii.specs.Write.{text_of, writing};

use binary::Unwritten;
use lent::words::{fill, wide};
use lines::{Broken, Fault, Header, Reading};
use lit::Lit;
use ordered::given::Shape;

// What is read of a text that is taken: the bytes it took; M; the numbers of inputs, latches and gates; the five root counts in walk order; and the number
// of justice sets.
#[derive(Clone, Copy)]
pub struct TextRead {
    pub used: usize,
    pub top: u32,
    pub inputs: u32,
    pub latches: u32,
    pub gates: u32,
    pub counts: [u32; 5],
    pub sets: u32,
}

// Right after the header: 3 for a list that is too short, other than the roots'. M may be above I + L + A.
#[tactic(auto, unfolding(crate::specs::Text::sized_at))]
fn sized(
    h: Header,
    at: usize,
    inputs: usize,
    states: usize,
    nexts: usize,
    resets: usize,
    gates: usize,
    sizes: usize,
) -> Result<usize, Broken>
    requires { Within h }
    ensures { result ≡ ended (sized_at h (room_for inputs states nexts resets gates sizes) at) }
{
    if inputs < wide(h.inputs)
        || states < wide(h.latches)
        || nexts < wide(h.latches)
        || resets < wide(h.latches)
        || gates < 3 * wide(h.gates)
        || sizes < wide(h.justice)
    {
        return Err(Broken {
            why: Fault::Short,
            place: at,
        });
    }
    Ok(at)
}

// From the first input line on, where the lists are long enough: the number of justice literals.
#[tactic(auto, unfolding(crate::specs::Text::lists_at))]
fn lists(
    s: &[u8],
    at: usize,
    h: Header,
    inputs: &mut [u32],
    states: &mut [u32],
    nexts: &mut [u32],
    resets: &mut [u32],
    gates: &mut [u32],
    sizes: &mut [u32],
    roots: &mut [u32],
) -> Result<Reading, Broken>
    requires { (Within h) × (Roomy h (room_of (lists_of inputs.old states.old nexts.old resets.old gates.old sizes.old roots.old))) }
    ensures { StoresText (lists_at s.now (length roots.old) h at) result (lists_of inputs.old states.old nexts.old resets.old gates.old sizes.old roots.old)
        (lists_of inputs.new states.new nexts.new resets.new gates.new sizes.new roots.new) }
{
    let most = 2 * h.top + 1;
    let latches = wide(h.latches);
    let after_inputs = ascii_lines::inputs(s, at, most, wide(h.inputs), inputs)?;
    let after_latches = ascii_lines::latches(
        s,
        after_inputs,
        most,
        latches,
        states,
        nexts,
        resets,
    )?;
    let rooted = lines::roots(s, after_latches, h, most, sizes, roots)?;
    let after = ascii_lines::gates(s, rooted.after, most, h.gates, gates)?;
    Ok(Reading {
        value: rooted.value,
        after,
    })
}

// From the end of the header on: the number of justice literals.
#[tactic(auto, unfolding(crate::specs::Text::body_at))]
fn body(
    s: &[u8],
    at: usize,
    h: Header,
    inputs: &mut [u32],
    states: &mut [u32],
    nexts: &mut [u32],
    resets: &mut [u32],
    gates: &mut [u32],
    sizes: &mut [u32],
    roots: &mut [u32],
) -> Result<Reading, Broken>
    requires { Within h }
    ensures { StoresText (body_at s.now (room_of (lists_of inputs.old states.old nexts.old resets.old gates.old sizes.old roots.old)) h at) result (lists_of inputs.old states.old nexts.old resets.old gates.old sizes.old roots.old)
        (lists_of inputs.new states.new nexts.new resets.new gates.new sizes.new roots.new) }
{
    let next = sized(
        h,
        at,
        inputs.len(),
        states.len(),
        nexts.len(),
        resets.len(),
        gates.len(),
        sizes.len(),
    )?;
    lists(
        s, next, h, inputs, states, nexts, resets, gates, sizes, roots,
    )
}

// The whole text; where it is refused, nothing is said of the lists yet.
#[tactic(auto, unfolding(crate::specs::Text::read_text))]
fn taken(
    s: &[u8],
    inputs: &mut [u32],
    states: &mut [u32],
    nexts: &mut [u32],
    resets: &mut [u32],
    gates: &mut [u32],
    sizes: &mut [u32],
    roots: &mut [u32],
) -> Result<TextRead, Broken>
    ensures { StoresRead (read_text s.now (room_of (lists_of inputs.old states.old nexts.old resets.old gates.old sizes.old roots.old))) result (lists_of inputs.old states.old nexts.old resets.old gates.old sizes.old roots.old)
        (lists_of inputs.new states.new nexts.new resets.new gates.new sizes.new roots.new) }
{
    let first = lines::read_header(s, b'a')?;
    let h = first.header;
    let rest = body(
        s,
        first.after,
        h,
        inputs,
        states,
        nexts,
        resets,
        gates,
        sizes,
        roots,
    )?;
    Ok(TextRead {
        used: rest.after,
        top: h.top,
        inputs: h.inputs,
        latches: h.latches,
        gates: h.gates,
        counts: [h.outputs, h.bad, h.constraints, h.fairness, rest.value],
        sets: h.justice,
    })
}

// Every cell of every list 0.
fn clear(
    inputs: &mut [u32],
    states: &mut [u32],
    nexts: &mut [u32],
    resets: &mut [u32],
    gates: &mut [u32],
    sizes: &mut [u32],
    roots: &mut [u32],
)
    ensures { lists_of inputs.new states.new nexts.new resets.new gates.new sizes.new roots.new
        ≡ cleared (lists_of inputs.old states.old nexts.old resets.old gates.old sizes.old roots.old) }
{
    fill(inputs, 0);
    fill(states, 0);
    fill(nexts, 0);
    fill(resets, 0);
    fill(gates, 0);
    fill(sizes, 0);
    fill(roots, 0);
}

// Reads a text file: its inputs, latch states, next states, resets (0 where the field is absent), gates (three words each, in the order of the file),
// justice sizes and roots into the lists, whose other cells stay. A refusal leaves every cell of every list 0. A variable that is defined twice is taken.
// Nothing after the last gate is looked at.
pub fn read(
    bytes: &[u8],
    inputs: &mut [u32],
    states: &mut [u32],
    nexts: &mut [u32],
    resets: &mut [u32],
    gates: &mut [u32],
    sizes: &mut [u32],
    roots: &mut [u32],
) -> Result<TextRead, Broken>
    ensures { seen result (record {
      inputs = inputs.new;
      states = states.new;
      nexts = nexts.new;
      resets = resets.new;
      gates = gates.new;
      sizes = sizes.new;
      roots = roots.new;
    }) ≡ outcome bytes.now (record {
      inputs = inputs.old;
      states = states.old;
      nexts = nexts.old;
      resets = resets.old;
      gates = gates.old;
      sizes = sizes.old;
      roots = roots.old;
    }) }
{
    let read = taken(bytes, inputs, states, nexts, resets, gates, sizes, roots);
    if read.is_err() {
        clear(inputs, states, nexts, resets, gates, sizes, roots);
    }
    read
}

// How many bytes the text of a circuit with so many variables, roots and justice sets has at most.
fn most_bytes(variables: usize, roots: usize, sets: usize) -> usize
    requires { (variables ≤ limit) × (roots ≤ limit) × (sets ≤ limit) }
    ensures { result ≡ 76 + 8 * (3 * variables + roots + sets) }
{
    76 + 8 * (3 * variables + roots + sets)
}

// Writes a circuit that passed its checks, if the lent bytes suffice. It is measured first, but where more bytes are lent than any text of its size has.
fn fitted(
    o: Shape,
    nexts: &[u32],
    resets: &[u32],
    gates: &[u32],
    sizes: &[u32],
    roots: &[u32],
    out: &mut [u8],
) -> Result<usize, Unwritten>
    requires { Given (record {
      inputs = o.inputs;
      counts = o.counts;
      nexts = nexts.now;
      resets = resets.now;
      gates = gates.now;
      sizes = sizes.now;
      roots = roots.now;
    }) }
    ensures { wrote result out.new ≡ written_to (text_of (file_in (record {
      inputs = o.inputs;
      counts = o.counts;
      nexts = nexts.now;
      resets = resets.now;
      gates = gates.now;
      sizes = sizes.now;
      roots = roots.now;
    }))) out.old }
{
    let h = put::header_for(o, nexts.len(), gates.len() / 2, sizes.len());
    if most_bytes(wide(h.top), roots.len(), sizes.len()) <= out.len() {
        return Ok(put::put_text(out, h, nexts, resets, gates, sizes, roots));
    }
    let needed = put::put_text(&mut out[..0], h, nexts, resets, gates, sizes, roots);
    if out.len() < needed {
        return Err(Unwritten {
            why: ordered::given::Fault::Short,
            needed,
        });
    }
    put::put_text(out, h, nexts, resets, gates, sizes, roots);
    Ok(needed)
}

// Writes an ordered circuit as a text into the lent bytes, whose other bytes stay: V is computed, optional counts stop at the last that is not zero, a
// latch line has a reset only where it is not 0, inputs, states and gate outputs are spelled out. What is no ordered circuit is refused, and then 3 where
// the bytes are too few: nothing is written.
#[tactic(auto, unfolding(crate::specs::Write::writing))]
pub fn write(
    o: Shape,
    nexts: &[u32],
    resets: &[u32],
    gates: &[u32],
    sizes: &[u32],
    roots: &[u32],
    out: &mut [u8],
) -> Result<usize, Unwritten>
    ensures { wrote result out.new ≡ writing (record {
      inputs = o.inputs;
      counts = o.counts;
      nexts = nexts.now;
      resets = resets.now;
      gates = gates.now;
      sizes = sizes.now;
      roots = roots.now;
    }) out.old }
{
    ordered::given::check(o, nexts, resets, gates, sizes, roots, Lit::from_code(0))?;
    fitted(o, nexts, resets, gates, sizes, roots, out)
}
