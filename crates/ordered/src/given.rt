// Whether what is lent is an ordered circuit. Each function that is given one asks this first.
ghost use Rattle.std.specs.Prelude.{◌≡◌, ◌+◌, ◌*◌, ◌≤◌, length, None};
ghost use Rattle.circuit.specs.Circuit.{first_over, first_stray};
ghost use Rattle.circuit.specs.Ordered.{count_from};
ghost use Rattle.circuit.specs.Outcome.{limit, total, pairs_of};
ghost use Rattle.circuit.specs.Resets.{side_by_side};
ghost use Rattle.checks.specs.Checks.{found};
ghost use Rattle.ordered.specs.Check.{fault_number, fault_literal, too_large, uneven, codes_of, breaks_order, first_disordered, checked};

use checks::{over_in, sum};
use circuit::LIMIT;
use lent::words::{counted, is_reset, wide};
use lit::Lit;

// An ordered circuit but for its lists: the number of inputs, and how many outputs, bad states, constraints, fairness and justice literals it has.
#[derive(Clone, Copy)]
pub struct Shape {
    pub inputs: u32,
    pub counts: [u32; 5],
}

// Why an ordered circuit is refused; the literal is the one at fault. Short is a caller's answer, for a list of its own that is too short.
#[derive(Clone, Copy)]
pub enum Fault {
    TooBig,
    Misshapen,
    Over(Lit),
    Reset(Lit),
    Disordered(Lit),
    Short,
}

// The fault's number.
impl From<Fault> for u32 {
    ghost from_gives = { λ why n. n ≡ fault_number why };

    fn from(why: Fault) -> u32 {
        match why {
            Fault::TooBig => 1,
            Fault::Misshapen => 2,
            Fault::Over(_) => 4,
            Fault::Reset(_) => 22,
            Fault::Disordered(_) => 23,
            Fault::Short => 3,
        }
    }
}

// The code that the fault names; 0 where it names none.
pub fn fault_literal(why: Fault) -> u32
    ensures { result ≡ fault_literal why }
{
    match why {
        Fault::TooBig => 0,
        Fault::Misshapen => 0,
        Fault::Over(l) => l.code(),
        Fault::Reset(l) => l.code(),
        Fault::Disordered(l) => l.code(),
        Fault::Short => 0,
    }
}

// Check 1.
#[tactic(auto, unfolding(crate::specs::Check::too_large))]
fn is_too_large(variables: usize, roots: usize, sets: usize) -> bool
    ensures { result ≡ too_large variables roots sets }
{
    LIMIT < variables || LIMIT < roots || LIMIT < sets
}

// The sum of the sizes, so few that it fits.
fn sum_of(sizes: &[u32]) -> usize
    requires { length sizes.now ≤ limit }
    ensures { result ≡ total sizes.now }
{
    let mut sum: usize = 0;
    for &size in sizes {
        sum += counted(size);
    }
    sum
}

// Check 2, where check 1 has passed.
#[tactic(auto, unfolding(crate::specs::Check::uneven))]
fn is_uneven(
    counts: [u32; 5],
    roots: usize,
    sizes: &[u32],
    nexts: usize,
    resets: usize,
    words: usize,
) -> bool
    requires { length sizes.now ≤ limit }
    ensures { result ≡ uneven counts roots sizes.now nexts resets words }
{
    sum(counts) != roots || sum_of(sizes) != wide(counts[4]) || nexts != resets || words % 2 != 0
}

// Check 4 of the gates, where it is known which is the first that is not in order: the codes of gates that are in order are not looked at.
fn over_in_gates(bound: usize, gates: &[u32], loose: Option<Lit>) -> Option<Lit>
    requires { loose ≡ None → None ≡ found (first_over bound gates.now) }
    ensures { result ≡ found (first_over bound gates.now) }
{
    loose.and_then(|_gate| over_in(gates, bound))
}

// Check 4 of the latches, each by its next state and then its reset; a next state that has no reset is not looked at. `checks::over_in_latches` looks at
// three lists, by `over_in`; two tests here, since an array of the two codes costs each latch instructions.
fn over_in_latches(nexts: &[u32], resets: &[u32], bound: usize) -> Option<Lit>
    ensures { result ≡ found (first_over bound (side_by_side nexts.now resets.now)) }
{
    for (&next, &reset) in nexts.iter().zip(resets) {
        if bound < wide(next) {
            return Some(Lit::from_code(next));
        }
        if bound < wide(reset) {
            return Some(Lit::from_code(reset));
        }
    }
    None
}

// Check 4.
fn over(
    bound: usize,
    gates: &[u32],
    nexts: &[u32],
    resets: &[u32],
    roots: &[u32],
    asked: Lit,
    loose: Option<Lit>,
) -> Option<Lit>
    requires { loose ≡ None → None ≡ found (first_over bound gates.now) }
    ensures { result ≡ found (first_over bound (codes_of gates.now nexts.now resets.now roots.now asked.0)) }
{
    over_in_gates(bound, gates, loose)
        .or_else(|| over_in_latches(nexts, resets, bound))
        .or_else(|| over_in(roots, bound))
        .or_else(|| (bound < wide(asked.code())).then_some(asked))
}

// Check 22, the first latch having the literal t. `checks::first_stray` is given the latches' literals as a list; here they are counted, and a closure for
// them would be no plainer: each contract would have to say what it answers at each place.
fn first_stray(t: usize, resets: &[u32]) -> Option<Lit>
    requires { t + 2 * length resets.now ≤ 4294967295 }
    ensures { result ≡ found (first_stray (count_from t (length resets.now)) resets.now) }
{
    for (j, &reset) in resets.iter().enumerate() {
        if !is_reset((t + 2 * j) as u32, reset) {
            return Some(Lit::from_code(reset));
        }
    }
    None
}

// Check 23 of one gate.
fn breaks_order(code: usize, first: u32, second: u32) -> bool
    ensures { result ≡ breaks_order code (record { larger = first; smaller = second }) }
{
    code <= wide(first) || first < second
}

// Check 23, the first gate having the code t.
#[tactic(auto, using(crate::proofs::Checks::pairs_drop, crate::proofs::Checks::pairs_past))]
fn first_disordered(t: usize, gates: &[u32]) -> Option<Lit>
    requires { t + length gates.now ≤ 4294967295 }
    ensures { result ≡ found (first_disordered t (pairs_of gates.now)) }
{
    // By index: tried over chunks of two with their numbers, and the proof of a turn did not close.
    for j in 0..gates.len() / 2 {
        let code = t + 2 * j;
        if breaks_order(code, gates[2 * j], gates[2 * j + 1]) {
            return Some(Lit::from_code(code as u32));
        }
    }
    None
}

// Whether an ordered circuit is lent, and the code that is asked is one of its codes; 0 where none is asked. 1 for I, L, G, R, V = I + L + G or the number
// of justice sets over the limit; 2 for counts that do not sum to the roots, sizes that do not sum to the fifth count, more or fewer resets than next states or
// an odd number of gate words; 4 for the first code over 2V + 1: gate by gate, latch by latch the next state and the reset, roots, the code asked; 22 for the
// first reset that is not 0, 1 or its latch's literal; 23 for the first gate whose code is not above its first input, or whose first input is below its
// second. In this order.
#[tactic(auto, unfolding(crate::specs::Check::checked))]
pub fn check(
    o: Shape,
    nexts: &[u32],
    resets: &[u32],
    gates: &[u32],
    sizes: &[u32],
    roots: &[u32],
    asked: Lit,
) -> Result<(), Fault>
    ensures { result ≡ checked (record {
      inputs = o.inputs;
      counts = o.counts;
      nexts = nexts.now;
      resets = resets.now;
      gates = gates.now;
      sizes = sizes.now;
      roots = roots.now;
    }) asked.0 }
{
    let sources = wide(o.inputs) + nexts.len();
    let variables = sources + gates.len() / 2;
    if is_too_large(variables, roots.len(), sizes.len()) {
        return Err(Fault::TooBig);
    }
    let counts = o.counts;
    if is_uneven(
        counts,
        roots.len(),
        sizes,
        nexts.len(),
        resets.len(),
        gates.len(),
    ) {
        return Err(Fault::Misshapen);
    }
    let loose = first_disordered(2 * (sources + 1), gates);
    // What is over is told before a stray is looked for: to hold both until the end costs each latch instructions.
    let large = over(2 * variables + 1, gates, nexts, resets, roots, asked, loose);
    if let Some(lit) = large {
        return Err(Fault::Over(lit));
    }
    let stray = first_stray(2 * (wide(o.inputs) + 1), resets);
    if let Some(reset) = stray {
        return Err(Fault::Reset(reset));
    }
    match loose {
        Some(gate) => Err(Fault::Disordered(gate)),
        None => Ok(()),
    }
}
