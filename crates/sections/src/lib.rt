// What both forms of an AIGER file share, as it is written: lines with a number, latch lines, the header, the root section. Each writer puts its bytes
// into lent bytes from a place on. What does not fit is not written, and the place after it is answered all the same.
#![tactic(auto)]

ghost use Rattle.std.specs.Prelude.{◌≡◌, min, length};
ghost use Rattle.text.specs.Put.{Puts};
ghost use Rattle.sections.specs.Bytes.{line_bytes, lines_bytes, count_bytes, counts_bytes, reset_bytes, latch_bytes, latches_bytes};
ghost use Rattle.sections.specs.Bytes.{up_to_last, optional, header_bytes, roots_bytes};

use lent::words::counted;
use lines::Header;

// A line with a number; the place after it.
pub fn put_line(out: &mut [u8], at: usize, v: u32) -> usize
    ensures { Puts out.old at (line_bytes v) out.new result }
{
    let after = text::put_decimal(out, at, v as u64);
    text::put(out, after, b'\n')
}

// Lines with a number each; the place after them.
#[tactic(auto, using(crate::proofs::Parts::rowings))]
pub fn put_lines(out: &mut [u8], at: usize, list: &[u32]) -> usize
    ensures { Puts out.old at (lines_bytes list.now) out.new result }
{
    let mut place = at;
    for v in list {
        place = put_line(out, place, *v);
    }
    place
}

// A count of the header, with the space before it; the place after it.
pub fn put_count(out: &mut [u8], at: usize, v: u32) -> usize
    ensures { Puts out.old at (count_bytes v) out.new result }
{
    let after = text::put(out, at, b' ');
    text::put_decimal(out, after, v as u64)
}

// Counts of the header; the place after them. But for the writer it is `put_lines`: one function for both would have to say in its contract which bytes
// the writer puts, by a trait with two empty structs, and would be longer than this one.
#[tactic(auto, using(crate::proofs::Parts::rowings))]
fn put_counts(out: &mut [u8], at: usize, list: &[u32]) -> usize
    ensures { Puts out.old at (counts_bytes list.now) out.new result }
{
    let mut place = at;
    for v in list {
        place = put_count(out, place, *v);
    }
    place
}

// A latch's reset with the space before it, or nothing where it is 0; the place after it.
#[tactic(auto, using(crate::proofs::Parts::resets))]
fn put_reset(out: &mut [u8], at: usize, reset: u32) -> usize
    ensures { Puts out.old at (reset_bytes reset) out.new result }
{
    if 0 < reset {
        return put_count(out, at, reset);
    }
    at
}

// A latch's line: its next state, its reset where that is not 0, a newline; the place after it. Inlined always: the calls cost each latch instructions.
#[inline(always)]
pub fn put_latch(out: &mut [u8], at: usize, next: u32, reset: u32) -> usize
    ensures { Puts out.old at (latch_bytes next reset) out.new result }
{
    let after_next = text::put_decimal(out, at, next as u64);
    let after_reset = put_reset(out, after_next, reset);
    text::put(out, after_reset, b'\n')
}

// Latch lines, of next states and resets side by side, as long as both last; the place after them.
#[tactic(auto, using(crate::proofs::Parts::latchings))]
pub fn put_latches(out: &mut [u8], at: usize, nexts: &[u32], resets: &[u32]) -> usize
    ensures { Puts out.old at (latches_bytes nexts.now resets.now) out.new result }
{
    let mut place = at;
    for (next, reset) in nexts.iter().zip(resets) {
        place = put_latch(out, place, *next, *reset);
    }
    place
}

// How many of B, C, J and F the header has: those up to the last that is not zero.
fn option_count(h: Header) -> usize
    ensures { result ≡ length (up_to_last (optional h)) }
{
    if 0 < h.fairness {
        4
    } else if 0 < h.justice {
        3
    } else if 0 < h.constraints {
        2
    } else if 0 < h.bad {
        1
    } else {
        0
    }
}

// The header after a tag: M I L O A, of B C J F those up to the last that is not zero, a newline; the place after it.
#[tactic(auto, using(crate::proofs::Parts::kept_few))]
pub fn put_header(out: &mut [u8], at: usize, tag: &[u8], h: Header) -> usize
    ensures { Puts out.old at (header_bytes tag.now h) out.new result }
{
    let row: [u32; 9] = [
        h.top,
        h.inputs,
        h.latches,
        h.outputs,
        h.gates,
        h.bad,
        h.constraints,
        h.justice,
        h.fairness,
    ];
    let n = 5 + option_count(h);
    let after_tag = text::put_bytes(out, at, tag);
    let after_counts = put_counts(out, after_tag, &row[..n]);
    text::put(out, after_counts, b'\n')
}

// The smaller of two numbers: the library's, under a name that a theorem speaks of (`one_smaller`).
pub fn smaller(x: usize, y: usize) -> usize
    ensures { result ≡ min x y }
{
    x.min(y)
}

// The root section, of all roots in the order in which they are walked: outputs, bad states, constraints, fairness, justice literals. In the file the
// justice sizes and literals stand before fairness. The place after it.
pub fn put_roots(out: &mut [u8], at: usize, h: Header, sizes: &[u32], roots: &[u32]) -> usize
    ensures { Puts out.old at (roots_bytes h (record {
      sizes = sizes.now;
      roots = roots.now;
    })) out.new result }
{
    let first = lines::first_roots(h);
    let fair = smaller(first, roots.len());
    let just = smaller(first + counted(h.fairness), roots.len());
    let after_first = put_lines(out, at, &roots[..fair]);
    let after_sizes = put_lines(out, after_first, sizes);
    let after_justice = put_lines(out, after_sizes, &roots[just..]);
    put_lines(out, after_justice, &roots[fair..just])
}
