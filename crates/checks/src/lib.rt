// What is asked before anything is written: checks 1 to 4, in their order, and then 22.
#![tactic(auto)]

ghost use Rattle.std.specs.Prelude.{◌≡◌, ◌+◌, ◌*◌};
ghost use Rattle.circuit.specs.Outcome.{total, lent_of};
ghost use Rattle.circuit.specs.Circuit.{latch_codes, codes, first_over, first_stray};
ghost use Rattle.checks.specs.Bare.{circuit_with};
ghost use Rattle.checks.specs.Checks.{found, over_limit, unequal, lacks, Small, sizing, straying, passing, Shaped};

use circuit::{CircuitLists, CircuitRecord, LIMIT, Refusal};
use lent::words::{counted, is_reset, wide};
use lit::{Lit, Var};

// How long each list is: of the gates, how many there are and how many words are left over.
#[derive(Clone, Copy)]
pub struct Lengths {
    pub inputs: usize,
    pub states: usize,
    pub nexts: usize,
    pub resets: usize,
    pub gates: usize,
    pub left_over: usize,
    pub roots: usize,
    pub map: usize,
    pub next_images: usize,
    pub reset_images: usize,
    pub root_images: usize,
    pub gates_out: usize,
    pub scratch: usize,
}

// Check 1.
#[tactic(auto, unfolding(crate::specs::Checks::over_limit))]
fn too_big(top: usize, n: Lengths) -> bool
    ensures { result ≡ over_limit top n }
{
    LIMIT < top || LIMIT < n.inputs || LIMIT < n.states || LIMIT < n.gates || LIMIT < n.roots
}

// The sum of the five counts.
pub fn sum(counts: [u32; 5]) -> usize
    ensures { result ≡ total counts }
{
    counted(counts[0])
        + (counted(counts[1]) + (counted(counts[2]) + (counted(counts[3]) + counted(counts[4]))))
}

// Check 2.
#[tactic(auto, unfolding(crate::specs::Checks::unequal))]
fn is_misshapen(counts: [u32; 5], n: Lengths) -> bool
    ensures { result ≡ unequal counts n }
{
    sum(counts) != n.roots || n.states != n.nexts || n.states != n.resets || n.left_over != 0
}

// Check 3, where check 1 has passed.
#[tactic(auto, unfolding(crate::specs::Checks::lacks))]
fn is_short(top: usize, n: Lengths) -> bool
    requires { Small top n }
    ensures { result ≡ lacks top n }
{
    n.map < top + 1
        || n.next_images < n.states
        || n.reset_images < n.states
        || n.root_images < n.roots
        || n.gates_out < 2 * n.gates
        || n.scratch < 3 * top + 3 + 3 * n.gates
}

// Checks 1 to 3, which ask for lengths alone.
#[tactic(auto, unfolding(crate::specs::Checks::sizing, crate::specs::Checks::over_limit))]
pub fn sized(circuit: CircuitRecord, n: Lengths) -> Result<(), Refusal>
    ensures { result ≡ sizing circuit n }
{
    let top = circuit.top;
    let v = wide(top.index());
    if too_big(v, n) {
        return Err(Refusal::TooBig);
    }
    let counts = circuit.counts;
    if is_misshapen(counts, n) {
        return Err(Refusal::Misshapen);
    }
    if is_short(v, n) {
        return Err(Refusal::Short);
    }
    Ok(())
}

// The first code of a list that is over the bound.
pub fn over_in(codes: &[u32], bound: usize) -> Option<Lit>
    ensures { result ≡ found (first_over bound codes.now) }
{
    for &code in codes {
        if bound < wide(code) {
            return Some(Lit::from_code(code));
        }
    }
    None
}

// The same of latches, each by its state, its next literal and its reset; a latch without one of them is not looked at.
pub fn over_in_latches(states: &[u32], nexts: &[u32], resets: &[u32], bound: usize) -> Option<Lit>
    ensures { result ≡ found (first_over bound (latch_codes states.now nexts.now resets.now)) }
{
    for ((&state, &next), &reset) in states.iter().zip(nexts).zip(resets) {
        if let Some(lit) = over_in(&[state, next, reset], bound) {
            return Some(lit);
        }
    }
    None
}

// The first reset that is not 0, 1 or the literal of its latch; a latch that has no reset is not looked at.
pub fn first_stray(states: &[u32], resets: &[u32]) -> Option<Lit>
    ensures { result ≡ found (first_stray states.now resets.now) }
{
    for (&state, &reset) in states.iter().zip(resets) {
        if !is_reset(state, reset) {
            return Some(Lit::from_code(reset));
        }
    }
    None
}

// Check 22.
fn resets_checked(states: &[u32], resets: &[u32]) -> Result<(), Refusal>
    ensures { result ≡ straying states.now resets.now }
{
    match first_stray(states, resets) {
        Some(lit) => Err(Refusal::Reset(lit)),
        None => Ok(()),
    }
}

// The first code over 2V + 1: inputs, gates (output, first, second), latches (state, next, reset), roots.
fn over(circuit: CircuitRecord, lists: &CircuitLists) -> Option<Lit>
    requires { Shaped lists.now.states.now lists.now.nexts.now lists.now.resets.now lists.now.gates.now }
    ensures { result ≡ found (first_over (2 * circuit.top.0 + 1) (codes (circuit_with circuit lists.now))) }
{
    let top = circuit.top;
    let bound = 2 * wide(top.index()) + 1;
    over_in(lists.inputs, bound)
        .or_else(|| over_in(lists.gates, bound))
        .or_else(|| over_in_latches(lists.states, lists.nexts, lists.resets, bound))
        .or_else(|| over_in(lists.roots, bound))
}

// Checks 1 to 4, and then 22. The lists that renumbering would write are only measured, so that whoever may but read them can ask as well.
pub fn checked(
    circuit: CircuitRecord,
    lists: &CircuitLists,
    map: &[u32],
    next_images: &[u32],
    reset_images: &[u32],
    root_images: &[u32],
    gates_out: &[u32],
    scratch: &[u32],
) -> Result<(), Refusal>
    ensures { result ≡ passing (lent_of circuit lists.now.inputs.now lists.now.states.now lists.now.nexts.now lists.now.resets.now
        lists.now.gates.now lists.now.roots.now map.now next_images.now reset_images.now root_images.now gates_out.now scratch.now) }
{
    let n = Lengths {
        inputs: lists.inputs.len(),
        states: lists.states.len(),
        nexts: lists.nexts.len(),
        resets: lists.resets.len(),
        gates: lists.gates.len() / 3,
        left_over: lists.gates.len() % 3,
        roots: lists.roots.len(),
        map: map.len(),
        next_images: next_images.len(),
        reset_images: reset_images.len(),
        root_images: root_images.len(),
        gates_out: gates_out.len(),
        scratch: scratch.len(),
    };
    sized(circuit, n)?;
    if let Some(lit) = over(circuit, lists) {
        return Err(Refusal::Over(lit));
    }
    resets_checked(lists.states, lists.resets)
}
