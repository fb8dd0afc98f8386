// Tokens read by a token reader that is made at the first of the bytes and moved past two answers: one for all that was read before, and the last one. A
// refusal moves it by nothing.
ghost use Rattle.std.specs.Prelude.{◌≡◌};
ghost use Rattle.token.specs.Answer.{uint_at, binary_at, delta_at, header_field_at, lit_at, symbol_index_at, pair_at};
ghost use Rattle.token_reader.specs.Reader.{starting, place_after, place_after_pair, moved_by, moved_past};

use token::{Inputs, Number, Refused};
use token_reader::{Taken, TokenReader};

// The reader past both, the last of them a number or a pair.
fn standing<'a, T: Taken>(
    s: &'a [u8],
    before: Result<Number, Refused>,
    last: Result<T, Refused>,
) -> TokenReader<'a>
    ensures { result ≡ moved_by T.used_of (moved_past (starting s.entry) before) last }
{
    token_reader::moved(token_reader::moved(token_reader::new(s), before), last)
}

// A decimal number.
pub fn uint(
    s: &[u8],
    before: Result<Number, Refused>,
    last: Result<Number, Refused>,
) -> Result<Number, Refused>
    ensures { result ≡ uint_at s.now (place_after (place_after 0 before) last) }
{
    token_reader::uint(standing(s, before, last))
}

// A number in groups of seven bits.
pub fn binary_uint(
    s: &[u8],
    before: Result<Number, Refused>,
    last: Result<Number, Refused>,
) -> Result<Number, Refused>
    ensures { result ≡ binary_at s.now (place_after (place_after 0 before) last) }
{
    token_reader::binary_uint(standing(s, before, last))
}

// A reference less the delta.
pub fn delta_code(
    s: &[u8],
    before: Result<Number, Refused>,
    last: Result<Number, Refused>,
    reference: u64,
) -> Result<Number, Refused>
    ensures { result ≡ delta_at s.now (place_after (place_after 0 before) last) reference }
{
    token_reader::delta_code(standing(s, before, last), reference)
}

// A count of the header, up to a limit.
pub fn header_field(
    s: &[u8],
    before: Result<Number, Refused>,
    last: Result<Number, Refused>,
    limit: u64,
) -> Result<Number, Refused>
    ensures { result ≡ header_field_at s.now (place_after (place_after 0 before) last) limit }
{
    token_reader::header_field(standing(s, before, last), limit)
}

// A literal's code, up to a limit, and one that a definition may assign where it is assigned.
pub fn lit(
    s: &[u8],
    before: Result<Number, Refused>,
    last: Result<Number, Refused>,
    limit: u64,
    assigning: bool,
) -> Result<Number, Refused>
    ensures { result ≡ lit_at s.now (place_after (place_after 0 before) last) limit assigning }
{
    token_reader::lit(standing(s, before, last), limit, assigning)
}

// A symbol's index, up to a limit.
pub fn symbol_index(
    s: &[u8],
    before: Result<Number, Refused>,
    last: Result<Number, Refused>,
    limit: u64,
) -> Result<Number, Refused>
    ensures { result ≡ symbol_index_at s.now (place_after (place_after 0 before) last) limit }
{
    token_reader::symbol_index(standing(s, before, last), limit)
}

// A gate's two inputs, from the output's code.
pub fn pair(
    s: &[u8],
    before: Result<Number, Refused>,
    last: Result<Number, Refused>,
    code: u64,
) -> Result<Inputs, Refused>
    ensures { result ≡ pair_at s.now (place_after (place_after 0 before) last) code }
{
    token_reader::pair(standing(s, before, last), code)
}

// The same, and a delta, where the last answer is a pair. Each has a name and a theorem of its own, since the parameters here are plain ones.
pub fn pair_after(
    s: &[u8],
    before: Result<Number, Refused>,
    last: Result<Inputs, Refused>,
    code: u64,
) -> Result<Inputs, Refused>
    ensures { result ≡ pair_at s.now (place_after_pair (place_after 0 before) last) code }
{
    token_reader::pair(standing(s, before, last), code)
}

pub fn delta_after(
    s: &[u8],
    before: Result<Number, Refused>,
    last: Result<Inputs, Refused>,
    reference: u64,
) -> Result<Number, Refused>
    ensures { result ≡ delta_at s.now (place_after_pair (place_after 0 before) last) reference }
{
    let reader = standing(s, before, last);
    token_reader::delta_code(reader, reference)
}
