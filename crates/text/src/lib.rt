// Text put into lent bytes from a place on. What does not fit is not written, and the place after it is answered all the same: the length of a
// text is what the same writer answers on a part with no room.
#![tactic(auto)]

ghost use Rattle.std.specs.Prelude.{◌≡◌, ◌+◌, ◌<◌, ◌≤◌, length, set};
ghost use Rattle.place.specs.Place.{further};
ghost use Rattle.token.specs.Format.{digits_of, shortest};
ghost use Rattle.text.specs.Put.{put_all, Puts};

// One byte at a place, if the place is there.
fn store(out: &mut [u8], at: usize, b: u8)
    ensures { out.new ≡ set out.old at b }
{
    if at < out.len() {
        out[at] = b;
    }
}

// One byte at a place, if the place is there; the place after it.
pub fn put(out: &mut [u8], at: usize, b: u8) -> usize
    ensures { (out.new ≡ set out.old at b) × (result ≡ further at 1) }
{
    store(out, at, b);
    place::further(at, 1)
}

// Bytes from a place on, as far as they fit; the place after them.
pub fn put_bytes(out: &mut [u8], at: usize, s: &[u8]) -> usize
    ensures { Puts out.old at s.now out.new result }
{
    let mut place = at;
    for &b in s {
        place = put(out, place, b);
    }
    place
}

// The digit of a number below ten.
fn digit(d: u64) -> u8
    requires { d < 10 }
    ensures { result ≡ 48 + d }
{
    b'0' + d as u8
}

// How many decimal digits a number has.
fn digit_count(v: u64) -> usize
    ensures { result ≡ length (digits_of v) }
{
    if v < 10 {
        return 1;
    }
    v.ilog10() as usize + 1
}

// The decimal digits of a number from a place on, where all of them fit. They are made from the last one to the first.
fn digits_from(out: &mut [u8], at: usize, v: u64, n: usize)
    requires { (at + n ≤ length out.old) × (n ≡ length (digits_of v)) }
    ensures { out.new ≡ put_all out.old at (digits_of v) }
{
    let mut place = at + n - 1;
    let mut rest = v;
    // a `while`, since the digits come of what is left of the number and not of a list
    while 10 <= rest {
        out[place] = digit(rest % 10);
        place -= 1;
        rest = rest / 10;
    }
    out[place] = digit(rest);
}

// The decimal digits of a number, as far as they fit; the place after them.
pub fn put_decimal(out: &mut [u8], at: usize, v: u64) -> usize
    ensures { Puts out.old at (digits_of v) out.new result }
{
    let n = digit_count(v);
    if out.len() <= at {
        return place::further(at, n);
    }
    if out.len() - at < n {
        let mut row = [0u8; 20];
        digits_from(&mut row, 0, v, n);
        return put_bytes(out, at, &row[..n]);
    }
    digits_from(out, at, v, n);
    at + n
}

// How many groups of seven bits a number takes.
fn group_count(d: u32) -> usize
    ensures { result ≡ length (shortest d) }
{
    if d < 128 {
        return 1;
    }
    d.ilog2() as usize / 7 + 1
}

// A number in groups of seven bits, the low group first, in its fewest bytes, as far as they fit; the place after them.
pub fn put_groups(out: &mut [u8], at: usize, d: u32) -> usize
    ensures { Puts out.old at (shortest d) out.new result }
{
    if out.len() <= at {
        return place::further(at, group_count(d));
    }
    let mut place = at;
    let mut rest = d;
    // a `while`, since the groups come of what is left of the number and not of a list
    while 128 <= rest {
        store(out, place, (128 + rest % 128) as u8);
        place += 1;
        rest = rest / 128;
    }
    store(out, place, rest as u8);
    place + 1
}
