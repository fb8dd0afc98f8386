// What callers are told of a refusal: document 01's number, and the literal at fault. Their definitions are circuit's, in its specs/Refusals.antt; the
// code stands here, so that a change of circuit's definitions is checked without it.
#![tactic(auto)]

ghost use Rattle.std.specs.Prelude.{◌≡◌};
ghost use Rattle.circuit.specs.Refusals.{refusal_number, refusal_literal};

use circuit::Refusal;
use lit::Lit;

// The refusal's number. A function and not `From`, which would have to stand in circuit, beside the definitions that it is proved against: a wrong
// definition would then be refused by the code alone, and no longer be a trial of circuit's theorems.
pub fn number(why: Refusal) -> u32
    ensures { result ≡ refusal_number why }
{
    match why {
        Refusal::TooBig => 1,
        Refusal::Misshapen => 2,
        Refusal::Short => 3,
        Refusal::Over(_) => 4,
        Refusal::Reset(_) => 22,
        Refusal::Again(_) => 5,
        Refusal::StateAgain(_) => 6,
        Refusal::Undefined(_) => 7,
        Refusal::Cycle(_) => 8,
    }
}

// The literal that the refusal names; 0 where it names none.
pub fn literal(why: Refusal) -> Lit
    ensures { result ≡ refusal_literal why }
{
    match why {
        Refusal::TooBig | Refusal::Misshapen | Refusal::Short => Lit::from_code(0),
        Refusal::Over(l)
        | Refusal::Reset(l)
        | Refusal::Again(l)
        | Refusal::StateAgain(l)
        | Refusal::Undefined(l)
        | Refusal::Cycle(l) => l,
    }
}
