// The two images that make a gate, and the codes that stand for it without one.
#![tactic(auto)]

ghost use Rattle.std.specs.Prelude.{◌≡◌};
ghost use Rattle.circuit.specs.Walk as circuit-walk;
ghost use Rattle.fold.specs.Fold.{larger_first, already_of};

use lit::Lit;

// The codes of a gate's inputs.
#[derive(Clone, Copy)]
pub struct Pair {
    pub larger: Lit,
    pub smaller: Lit,
}

impl Pair {
    // Two images, the larger code first.
    #[tactic(auto, unfolding(crate::specs::Fold::larger_first))]
    pub fn of(x: Lit, y: Lit) -> Pair
        ensures { result ≡ larger_first x y }
    {
        Pair {
            larger: x.max(y),
            smaller: x.min(y),
        }
    }

    // What folding makes of the gate, if anything: the first of four rows that fits it.
    #[tactic(auto, unfolding(circuit::specs::Walk::folded))]
    fn folded(self) -> Option<Lit>
        ensures { result ≡ already_of (circuit-walk.folded self.larger.0 self.smaller.0) }
    {
        let Pair { larger, smaller } = self;
        match (larger.code(), smaller.code()) {
            // row 1: either is 0, gives 0
            (0, _) | (_, 0) => Some(Lit::from_code(0)),
            // row 2: the larger is 1, gives the smaller
            (1, _) => Some(smaller),
            // row 3: both are equal, gives the smaller
            (hi, lo) if hi == lo => Some(smaller),
            // row 4: the smaller is 1, gives the larger
            (_, 1) => Some(larger),
            // no row: the gate stays
            _ => None,
        }
    }

    // The same, if folding is on.
    pub fn folded_if(self, on: bool) -> Option<Lit>
        ensures { result ≡ already_of (circuit-walk.folded_if on self.larger.0 self.smaller.0) }
    {
        if on { self.folded() } else { None }
    }
}
