// The bytes of a text, put into lent bytes. What does not fit is not written, and the place after it is answered all the same.
ghost use Rattle.std.specs.Prelude.{◌≡◌, ◌+◌, ◌*◌, ◌≤◌, length};
ghost use Rattle.text.specs.Put.{Puts};
ghost use Rattle.circuit.specs.Walk.{first_code};
ghost use Rattle.circuit.specs.Ordered.{first_latch};
ghost use Rattle.circuit.specs.Outcome.{limit, pairs_of};
ghost use Rattle.binary.specs.Write.{header_with};
ghost use Rattle.ascii.specs.Write.{input_lines, stated_bytes, stated_lines, gate_line, gate_lines, parts_of};

use lent::words::wide;
use lines::Header;
use ordered::given::Shape;

// Input lines, of the codes 2, 4, ..; the place after them.
fn put_inputs(out: &mut [u8], at: usize, n: u32) -> usize
    requires { n ≤ limit }
    ensures { Puts out.old at (input_lines n) out.new result }
{
    let mut place = at;
    for i in 0..n {
        place = sections::put_line(out, place, 2 + 2 * i);
    }
    place
}

// A latch's line: its state, a space, and the rest as in the other form; the place after it.
fn put_stated(out: &mut [u8], at: usize, state: u32, next: u32, reset: u32) -> usize
    ensures { Puts out.old at (stated_bytes state next reset) out.new result }
{
    let after_state = text::put_decimal(out, at, state as u64);
    let after_space = text::put(out, after_state, b' ');
    sections::put_latch(out, after_space, next, reset)
}

// Latch lines, of the states after I inputs, and of next states and resets side by side, as long as both last; the place after them. By number: `zip` asks
// of each list in each turn whether it ends, which costs each latch instructions.
fn put_latches(out: &mut [u8], at: usize, inputs: u32, nexts: &[u32], resets: &[u32]) -> usize
    requires { inputs + length nexts.now ≤ limit }
    ensures { Puts out.old at (stated_lines (first_latch inputs) nexts.now resets.now) out.new result }
{
    let mut state = 2 + 2 * inputs;
    let mut place = at;
    for i in 0..nexts.len().min(resets.len()) {
        place = put_stated(out, place, state, nexts[i], resets[i]);
        state += 2;
    }
    place
}

// A gate's line: its output, its two inputs with a space before each, a newline; the place after it.
fn put_gate(out: &mut [u8], at: usize, output: u32, first: u32, second: u32) -> usize
    ensures { Puts out.old at (gate_line output first second) out.new result }
{
    let after_output = text::put_decimal(out, at, output as u64);
    let after_first = sections::put_count(out, after_output, first);
    let after_second = sections::put_count(out, after_first, second);
    text::put(out, after_second, b'\n')
}

// Gate lines, of gates after n inputs and latches, two words each; the place after them.
fn put_gates(out: &mut [u8], at: usize, n: usize, gates: &[u32]) -> usize
    requires { 2 * n + length gates.now ≤ 2097150 }
    ensures { Puts out.old at (gate_lines (first_code n) (pairs_of gates.now)) out.new result }
{
    let mut code = 2 * (n + 1);
    let mut place = at;
    // By index: a gate is two words side by side, which pieces of two words would still be read by index for.
    for j in 0..gates.len() / 2 {
        place = put_gate(out, place, code as u32, gates[2 * j], gates[2 * j + 1]);
        code += 2;
    }
    place
}

// The header of a circuit that passed its checks: V is computed, and J is the number of justice sets.
pub fn header_for(o: Shape, latches: usize, gates: usize, sets: usize) -> Header
    requires { (o.inputs + latches + gates ≤ limit) × (sets ≤ limit) }
    ensures { result ≡ header_with o.inputs o.counts latches gates sets }
{
    let counts = o.counts;
    Header {
        top: (wide(o.inputs) + latches + gates) as u32,
        inputs: o.inputs,
        latches: latches as u32,
        outputs: counts[0],
        gates: gates as u32,
        bad: counts[1],
        constraints: counts[2],
        justice: sets as u32,
        fairness: counts[3],
    }
}

// All bytes of the text from the start on; the place after them.
pub fn put_text(
    out: &mut [u8],
    h: Header,
    nexts: &[u32],
    resets: &[u32],
    gates: &[u32],
    sizes: &[u32],
    roots: &[u32],
) -> usize
    requires { 2 * (h.inputs + length nexts.now) + length gates.now ≤ 2097150 }
    ensures { Puts out.old 0 (parts_of h nexts.now resets.now sizes.now roots.now
        (h.inputs + length nexts.now) (pairs_of gates.now)) out.new result }
{
    let sources = wide(h.inputs) + nexts.len();
    let after_header = sections::put_header(out, 0, b"aag", h);
    let after_inputs = put_inputs(out, after_header, h.inputs);
    let after_latches = put_latches(out, after_inputs, h.inputs, nexts, resets);
    let after_roots = sections::put_roots(out, after_latches, h, sizes, roots);
    put_gates(out, after_roots, sources, gates)
}
