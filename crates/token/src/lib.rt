// AIGER's number tokens, on lent bytes and a place in them: decimal numbers, numbers in groups of seven bits, deltas, and a gate's pair of
// deltas. A place past the end reads as the end. A refusal consumes nothing and names the place given; in a pair, the first byte of the delta
// that caused it.
#![tactic(auto)]

ghost use Rattle.std.specs.Prelude.{Ok, SomeIff, ◌≡◌, ◌+◌, ◌*◌, ◌^◌, ◌<◌, ◌≤◌, ltb, length, take, drop};
ghost use Rattle.token.specs.Format.{decimal_value, is_digit};
ghost use Rattle.token.specs.Answer.{reason_number, digits_at, fitting, uint_at, binary_at, less, delta_at, within, assigned, header_field_at, lit_at, symbol_index_at, pair_of, pair_at};

// Why a number is refused, with the documents' number of each reason.
#[derive(Clone, Copy)]
pub enum Reason {
    NoDigit = 10,
    LeadingZero = 11,
    OverWidth = 21,
    OverLimit = 12,
    AssignsZero = 13,
    AssignsOdd = 14,
    Cut = 15,
    TooLong = 16,
    OverReference = 17,
    ZeroDelta = 20,
}

// A number and the bytes it took.
#[derive(Clone, Copy)]
pub struct Number {
    pub value: u64,
    pub used: usize,
}

// A gate's two inputs and the bytes they took.
#[derive(Clone, Copy)]
pub struct Inputs {
    pub first: u64,
    pub second: u64,
    pub used: usize,
}

// Why nothing is read, and where.
#[derive(Clone, Copy)]
pub struct Refused {
    pub why: Reason,
    pub place: usize,
}

// The documents' number of a reason.
impl From<Reason> for u32 {
    ghost from_gives = { λ why n. n ≡ reason_number why };

    fn from(why: Reason) -> u32 {
        why as u32
    }
}

// Whether a byte is a digit.
#[tactic(auto, unfolding(crate::specs::Format::is_digit))]
fn is_digit(b: u8) -> bool
    ensures { result ≡ is_digit b }
{
    b.is_ascii_digit()
}

// Whether a digit stands at a place.
fn digit_at(s: &[u8], at: usize) -> bool
    ensures { result ≡ ltb 0 (digits_at s.now at) }
{
    at < s.len() && is_digit(s[at])
}

// A number with one digit more, where that fits 64 bits. Below a tenth of the largest it does, whatever the digit: one comparison says so.
fn with_digit(v: u64, d: u64) -> Option<u64>
    requires { d ≤ 9 }
    ensures { SomeIff result (v * 10 + d < 2 ^ 64) (v * 10 + d) }
{
    if v < u64::MAX / 10 {
        return Some(v * 10 + d);
    }
    v.checked_mul(10)?.checked_add(d)
}

// The number that the digits at a place write, which has to fit 64 bits.
fn decimal(s: &[u8], at: usize) -> Result<Number, Refused>
    requires { at ≤ length s.now }
    ensures { result ≡ fitting (decimal_value (take (digits_at s.now at) (drop at s.now))) (digits_at s.now at) at }
{
    let mut v: u64 = 0;
    for (n, &b) in s[at..].iter().enumerate() {
        if !is_digit(b) {
            return Ok(Number { value: v, used: n });
        }
        let Some(more) = with_digit(v, u64::from(b - b'0')) else {
            return Err(Refused {
                why: Reason::OverWidth,
                place: at,
            });
        };
        v = more;
    }
    Ok(Number {
        value: v,
        used: s.len() - at,
    })
}

// A decimal number: 10 where no digit stands, 11 for a leading zero, 21 for a number over 64 bits.
pub fn uint(s: &[u8], at: usize) -> Result<Number, Refused>
    ensures { result ≡ uint_at s.now at }
{
    if digit_at(s, at) {
        if s[at] == b'0' {
            if digit_at(s, at + 1) {
                return Err(Refused {
                    why: Reason::LeadingZero,
                    place: at,
                });
            }
            return Ok(Number { value: 0, used: 1 });
        }
        return decimal(s, at);
    }
    Err(Refused {
        why: Reason::NoDigit,
        place: at,
    })
}

// A number in groups of seven bits, low group first: 15 where the end cuts it, 16 where its eighth byte goes on.
pub fn binary_uint(s: &[u8], at: usize) -> Result<Number, Refused>
    ensures { result ≡ binary_at s.now at }
{
    if s.len() <= at {
        return Err(Refused {
            why: Reason::Cut,
            place: at,
        });
    }
    let mut v: u64 = 0;
    let mut weight: u64 = 1;
    for (n, &b) in s[at..].iter().enumerate() {
        let b = u64::from(b);
        if b < 128 {
            return Ok(Number {
                value: v + b * weight,
                used: n + 1,
            });
        }
        if n == 7 {
            return Err(Refused {
                why: Reason::TooLong,
                place: at,
            });
        }
        v += (b - 128) * weight;
        weight *= 128;
    }
    Err(Refused {
        why: Reason::Cut,
        place: at,
    })
}

// A delta taken from its reference, which it may reach.
fn taken_from(delta: Number, reference: u64, at: usize) -> Result<Number, Refused>
    ensures { result ≡ less reference at (Ok delta) }
{
    if reference < delta.value {
        return Err(Refused {
            why: Reason::OverReference,
            place: at,
        });
    }
    Ok(Number {
        value: reference - delta.value,
        used: delta.used,
    })
}

// A reference less the delta at a place: 15 and 16 as `binary_uint`, and 17 for a delta over its reference.
//
// Put into its callers: an answer that goes through memory has each delta of a file wait for the one before.
#[inline(always)]
#[tactic(auto, unfolding(crate::specs::Answer::delta_at))]
pub fn delta_code(s: &[u8], at: usize, reference: u64) -> Result<Number, Refused>
    ensures { result ≡ delta_at s.now at reference }
{
    let delta = binary_uint(s, at)?;
    taken_from(delta, reference, at)
}

// A number held to a limit, which it may reach.
fn held_to(number: Number, limit: u64, at: usize) -> Result<Number, Refused>
    ensures { result ≡ within limit at (Ok number) }
{
    if limit < number.value {
        return Err(Refused {
            why: Reason::OverLimit,
            place: at,
        });
    }
    Ok(number)
}

// A code that a definition may assign.
fn assignable(code: Number, at: usize) -> Result<Number, Refused>
    ensures { result ≡ assigned at (Ok code) }
{
    if code.value == 0 {
        return Err(Refused {
            why: Reason::AssignsZero,
            place: at,
        });
    }
    if code.value % 2 == 1 {
        return Err(Refused {
            why: Reason::AssignsOdd,
            place: at,
        });
    }
    Ok(code)
}

// A count of the header: as `uint`, and 12 over the limit.
#[tactic(auto, unfolding(crate::specs::Answer::header_field_at))]
pub fn header_field(s: &[u8], at: usize, limit: u64) -> Result<Number, Refused>
    ensures { result ≡ header_field_at s.now at limit }
{
    let count = uint(s, at)?;
    held_to(count, limit, at)
}

// A literal's code: as `uint`, then, where it is assigned, 13 for 0 and 14 for an odd code, and 12 over the limit.
#[tactic(auto, unfolding(crate::specs::Answer::lit_at))]
pub fn lit(s: &[u8], at: usize, limit: u64, assigning: bool) -> Result<Number, Refused>
    ensures { result ≡ lit_at s.now at limit assigning }
{
    let mut code = uint(s, at)?;
    if assigning {
        code = assignable(code, at)?;
    }
    held_to(code, limit, at)
}

// A symbol's index: as `uint`, and 12 over the limit.
#[tactic(auto, unfolding(crate::specs::Answer::symbol_index_at))]
pub fn symbol_index(s: &[u8], at: usize, limit: u64) -> Result<Number, Refused>
    ensures { result ≡ symbol_index_at s.now at limit }
{
    let index = uint(s, at)?;
    held_to(index, limit, at)
}

// The last step of a pair, both deltas read by at most eight bytes: 20 at the pair's place for a first input that is the output's code.
fn paired(code: u64, at: usize, first: Number, second: Number) -> Result<Inputs, Refused>
    requires { (first.used ≤ 8) × (second.used ≤ 8) }
    ensures { result ≡ pair_of code at first.value first.used second.value second.used }
{
    if first.value == code {
        return Err(Refused {
            why: Reason::ZeroDelta,
            place: at,
        });
    }
    Ok(Inputs {
        first: first.value,
        second: second.value,
        used: first.used + second.used,
    })
}

// A gate's two inputs, the first from the output's code, the second from the first: 15, 16 and 17 as `delta_code`, and then 20 for a first delta of
// zero.
pub fn pair(s: &[u8], at: usize, code: u64) -> Result<Inputs, Refused>
    ensures { result ≡ pair_at s.now at code }
{
    let first = delta_code(s, at, code)?;
    let second = delta_code(s, at + first.used, first.value)?;
    paired(code, at, first, second)
}
