// What is asked before a record is copied: checks 1 to 3 on lengths, the room for the records' codes, check 4, and check 22.
ghost use Rattle.std.specs.Prelude.{◌≡◌};
ghost use Rattle.aig_records.specs.Checks.{over_all, checked_of};

use crate::{RecordLists, records};
use checks::Lengths;
use circuit::{CircuitRecord, Refusal};
use lent::words::wide;
use lit::{Lit, Var};

// The first literal over 2V + 1: inputs, gates, latches, roots.
fn over_all(top: Var, lists: &RecordLists) -> Option<Lit>
    ensures { result ≡ over_all top lists.now.inputs.now lists.now.gates.now lists.now.states.now lists.now.nexts.now
        lists.now.resets.now lists.now.roots.now }
{
    let bound = 2 * wide(top.index()) + 1;
    checks::over_in(lists.inputs, bound)
        .or_else(|| records::first_over(lists.gates, bound))
        .or_else(|| checks::over_in_latches(lists.states, lists.nexts, lists.resets, bound))
        .or_else(|| checks::over_in(lists.roots, bound))
}

// The checks in their order, where all lists have these lengths, and the one for the records' codes `room`.
#[tactic(auto, unfolding(crate::specs::Checks::checked_of))]
pub fn judge(
    circuit: CircuitRecord,
    n: Lengths,
    room: usize,
    lists: &RecordLists,
) -> Result<(), Refusal>
    ensures { result ≡ checked_of circuit n room lists.now.inputs.now lists.now.states.now lists.now.nexts.now
        lists.now.resets.now lists.now.gates.now lists.now.roots.now }
{
    checks::sized(circuit, n)?;
    if room / 3 < lists.gates.len() {
        return Err(Refusal::Short);
    }
    if let Some(lit) = over_all(circuit.top, lists) {
        return Err(Refusal::Over(lit));
    }
    if let Some(lit) = checks::first_stray(lists.states, lists.resets) {
        return Err(Refusal::Reset(lit));
    }
    Ok(())
}
