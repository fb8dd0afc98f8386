// The token reader: lent bytes and a place in them. Each function takes it apart and calls a number token of the crate `token`, or makes it anew
// at the place after one. The reader is passed by value: reading does not move it, `moved` does.
#![tactic(auto)]

ghost use Rattle.std.specs.Prelude.{ℕ, ◌≡◌};
ghost use Rattle.token.specs.Answer.{uint_at, binary_at, delta_at, header_field_at, lit_at, symbol_index_at, pair_at};
ghost use Rattle.token_reader.specs.Reader.{starting, past, moved_by};

use token::{Inputs, Number, Refused};

// What is read, be it a number or a gate's pair, took some bytes.
pub trait Taken {
    ghost used_of: { Self → ℕ };

    fn used(self) -> usize
        ensures { result ≡ used_of self };
}

impl Taken for Number {
    ghost used_of = { λ number. number.used };

    fn used(self) -> usize {
        self.used
    }
}

impl Taken for Inputs {
    ghost used_of = { λ inputs. inputs.used };

    fn used(self) -> usize {
        let Inputs { used, .. } = self;
        used
    }
}

#[derive(Clone, Copy)]
pub struct TokenReader<'a> {
    pub bytes: &'a [u8],
    pub at: usize,
}

// A reader at the first of the bytes.
pub fn new<'a>(bytes: &'a [u8]) -> TokenReader<'a>
    ensures { result ≡ starting bytes.entry }
{
    TokenReader { bytes, at: 0 }
}

// A decimal number.
pub fn uint<'a>(r: TokenReader<'a>) -> Result<Number, Refused>
    ensures { result ≡ uint_at r.entry.bytes.now r.entry.at }
{
    token::uint(r.bytes, r.at)
}

// A number in groups of seven bits.
pub fn binary_uint<'a>(r: TokenReader<'a>) -> Result<Number, Refused>
    ensures { result ≡ binary_at r.entry.bytes.now r.entry.at }
{
    token::binary_uint(r.bytes, r.at)
}

// A reference less the delta.
pub fn delta_code<'a>(r: TokenReader<'a>, reference: u64) -> Result<Number, Refused>
    ensures { result ≡ delta_at r.entry.bytes.now r.entry.at reference }
{
    token::delta_code(r.bytes, r.at, reference)
}

// A count of the header, up to a limit.
pub fn header_field<'a>(r: TokenReader<'a>, limit: u64) -> Result<Number, Refused>
    ensures { result ≡ header_field_at r.entry.bytes.now r.entry.at limit }
{
    token::header_field(r.bytes, r.at, limit)
}

// A literal's code, up to a limit, and one that a definition may assign where it is assigned.
pub fn lit<'a>(r: TokenReader<'a>, limit: u64, assigning: bool) -> Result<Number, Refused>
    ensures { result ≡ lit_at r.entry.bytes.now r.entry.at limit assigning }
{
    token::lit(r.bytes, r.at, limit, assigning)
}

// A symbol's index, up to a limit.
pub fn symbol_index<'a>(r: TokenReader<'a>, limit: u64) -> Result<Number, Refused>
    ensures { result ≡ symbol_index_at r.entry.bytes.now r.entry.at limit }
{
    token::symbol_index(r.bytes, r.at, limit)
}

// A gate's two inputs, from the output's code.
pub fn pair<'a>(r: TokenReader<'a>, code: u64) -> Result<Inputs, Refused>
    ensures { result ≡ pair_at r.entry.bytes.now r.entry.at code }
{
    token::pair(r.bytes, r.at, code)
}

// The place past what was read; a refusal leaves the place.
fn place_after<T: Taken>(at: usize, t: Result<T, Refused>) -> usize
    ensures { result ≡ past T.used_of at t }
{
    match t {
        Ok(read) => place::further(at, read.used()),
        Err(_) => at,
    }
}

// The reader past what was read; a refusal leaves the place.
pub fn moved<'a, T: Taken>(r: TokenReader<'a>, t: Result<T, Refused>) -> TokenReader<'a>
    ensures { result ≡ moved_by T.used_of r.entry t }
{
    TokenReader {
        bytes: r.bytes,
        at: place_after(r.at, t),
    }
}
