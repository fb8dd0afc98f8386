// The bytes of a binary file, put into lent bytes. What does not fit is not written, and the place after it is answered all the same.
ghost use Rattle.std.specs.Prelude.{◌≡◌, ◌+◌, ◌*◌, ◌<◌, ◌≤◌, ◌++◌, length};
ghost use Rattle.token.specs.Format.{shortest};
ghost use Rattle.text.specs.Put.{put_all, Puts};
ghost use Rattle.circuit.specs.Walk.{first_code};
ghost use Rattle.circuit.specs.Ordered.{InOrder};
ghost use Rattle.circuit.specs.Outcome.{limit, pairs_of};
ghost use Rattle.binary.specs.Write.{header_with, gates_bytes, parts_of};

use lent::words::wide;
use lines::Header;
use ordered::given::Shape;

// A delta of three bytes or fewer, where three are there; the place after it.
fn put_delta(out: &mut [u8], at: usize, d: u32) -> usize
    requires { (at + 3 ≤ length out.old) × (d < 2097152) }
    ensures { (out.new ≡ put_all out.old at (shortest d)) × (result ≡ at + length (shortest d)) }
{
    if d < 128 {
        out[at] = d as u8;
        return at + 1;
    }
    out[at] = (128 + d % 128) as u8;
    if d < 16384 {
        out[at + 1] = (d / 128) as u8;
        return at + 2;
    }
    out[at + 1] = (128 + d / 128 % 128) as u8;
    out[at + 2] = (d / 16384) as u8;
    at + 3
}

// A gate's two deltas in their fewest bytes; the place after them.
fn put_gate(out: &mut [u8], at: usize, first: u32, second: u32) -> usize
    requires { (first < 2097152) × (second < 2097152) }
    ensures { Puts out.old at (shortest first ++ shortest second) out.new result }
{
    if at < out.len() {
        if 6 <= out.len() - at {
            let after = put_delta(out, at, first);
            return put_delta(out, after, second);
        }
    }
    let after = text::put_groups(out, at, first);
    text::put_groups(out, after, second)
}

// Gates, two words each, after n inputs and latches, each as two deltas in their fewest bytes; the place after them.
fn put_gates(out: &mut [u8], at: usize, n: usize, gates: &[u32]) -> usize
    requires { (2 * n + length gates.now ≤ 2097150) × InOrder n (pairs_of gates.now) }
    ensures { Puts out.old at (gates_bytes (first_code n) (pairs_of gates.now)) out.new result }
{
    let mut code = 2 * (n + 1);
    let mut place = at;
    // By index: the contract says by index how the gates are in order.
    for j in 0..gates.len() / 2 {
        let first = gates[2 * j];
        place = put_gate(out, place, code as u32 - first, first - gates[2 * j + 1]);
        code += 2;
    }
    place
}

// The header of a circuit that passed its checks: V is computed, and J is the number of justice sets. The writer of texts has the same: as a public function
// it would ask of its caller that the sums fit a word.
pub fn header_for(o: Shape, latches: usize, gates: usize, sets: usize) -> Header
    requires { (o.inputs + latches + gates ≤ limit) × (sets ≤ limit) }
    ensures { result ≡ header_with o.inputs o.counts latches gates sets }
{
    let counts = o.counts;
    Header {
        top: (wide(o.inputs) + latches + gates) as u32,
        inputs: o.inputs,
        latches: latches as u32,
        outputs: counts[0],
        gates: gates as u32,
        bad: counts[1],
        constraints: counts[2],
        justice: sets as u32,
        fairness: counts[3],
    }
}

// All bytes of the file from the start on; the place after them.
pub fn put_file(
    out: &mut [u8],
    h: Header,
    nexts: &[u32],
    resets: &[u32],
    gates: &[u32],
    sizes: &[u32],
    roots: &[u32],
) -> usize
    requires { (2 * (h.inputs + length nexts.now) + length gates.now ≤ 2097150) × InOrder (h.inputs + length nexts.now) (pairs_of gates.now) }
    ensures { Puts out.old 0 (parts_of h nexts.now resets.now sizes.now roots.now (h.inputs + length nexts.now) (pairs_of gates.now)) out.new result }
{
    let sources = wide(h.inputs) + nexts.len();
    let after_header = sections::put_header(out, 0, b"aig", h);
    let after_latches = sections::put_latches(out, after_header, nexts, resets);
    let after_roots = sections::put_roots(out, after_latches, h, sizes, roots);
    put_gates(out, after_roots, sources, gates)
}
