// Places in lent bytes: where one stands after some more of them.
#![tactic(auto)]

ghost use Rattle.std.specs.Prelude.{◌≡◌};
ghost use Rattle.place.specs.Place.{further};

// The place n bytes further, or the largest one where that is no place. No slice reaches the largest, so it reads as the end as well.
pub fn further(at: usize, n: usize) -> usize
    ensures { result ≡ further at n }
{
    at.saturating_add(n)
}
