// The gates made, in the words of the lent gate list: two words a gate, the larger code first.
ghost use Rattle.std.specs.Prelude.{◌≡◌, ◌+◌, ◌*◌, ◌<◌, length};
ghost use Rattle.aig.specs.Store.{smaller_at, pair_at, with_gate};

use fold::Pair;
use lit::Lit;

// Whether gate k has this pair. Gates under one head mostly differ in the smaller code, so that comes first.
#[tactic(auto, unfolding(crate::specs::Store::pair_at))]
pub fn is_at(out: &[u32], k: usize, pair: Pair) -> bool
    requires { smaller_at k < length out.now }
    ensures { result ≡ pair_at out.now k pair }
{
    Lit::from_code(out[2 * k + 1]) == pair.smaller && Lit::from_code(out[2 * k]) == pair.larger
}

// Puts a gate after the `made` gates that are there.
pub fn append(out: &mut [u32], made: usize, pair: Pair)
    requires { 2 * made + 1 < length out.old }
    ensures { out.new ≡ with_gate out.old made pair }
{
    out[2 * made] = pair.larger.code();
    out[2 * made + 1] = pair.smaller.code();
}
