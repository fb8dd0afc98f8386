// The walks in turn: gate outputs unless trimmed, next states, roots.
ghost use Rattle.std.specs.Prelude.{◌<◌, ◌≤◌};
ghost use Rattle.aig.specs.Walks.{CanWalk, Walks, every_from, turns};

use crate::shape::Shape;
use crate::walk::{State, Walk};
use crate::{flat, walk};
use circuit::Refusal;
use lit::Lit;

// The literals of a list, every step-th from the first, until a walk is refused; `before` gates have been made.
fn each(
    lits: &[u32],
    step: usize,
    before: usize,
    shape: Shape,
    gates: &[u32],
    map: &mut [u32],
    out: &mut [u32],
    scratch: &mut [u32],
) -> Result<usize, Refusal>
    requires { (0 < step) × (step ≤ 3) × CanWalk shape gates.now before (every_from step 0 lits.now) map.old out.old scratch.old }
    ensures { Walks shape gates.now before (every_from step 0 lits.now) map.old out.old
        scratch.old result map.new out.new scratch.new }
{
    let mut made = before;
    let mut i = 0;
    // a `while`, since `step_by` asks its iterator for each literal that it passes over
    while i < lits.len() {
        made = walk::run(
            State::Transfer(Walk::start(made), Lit::from_code(lits[i])),
            shape,
            gates,
            map,
            out,
            scratch,
        )?;
        i += step;
    }
    Ok(made)
}

// All that is walked, in order.
pub fn walked(
    trim: bool,
    nexts: &[u32],
    roots: &[u32],
    shape: Shape,
    gates: &[u32],
    map: &mut [u32],
    out: &mut [u32],
    scratch: &mut [u32],
) -> Result<usize, Refusal>
    requires { CanWalk shape gates.now 0 (turns trim gates.now nexts.now roots.now) map.old out.old scratch.old }
    ensures { Walks shape gates.now 0 (turns trim gates.now nexts.now roots.now) map.old
        out.old scratch.old result map.new out.new scratch.new }
{
    let mut made = 0;
    if !trim {
        made = each(gates, flat::WORDS, made, shape, gates, map, out, scratch)?;
    }
    made = each(nexts, 1, made, shape, gates, map, out, scratch)?;
    each(roots, 1, made, shape, gates, map, out, scratch)
}
