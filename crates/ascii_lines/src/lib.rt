// What the text form of an AIGER file has beside what both forms share: lines that define a literal, of inputs, latches and gates. Each section reads
// forward from a place and answers the place after it, or why it stops and where; what it reads goes into lent lists, and a section that is refused
// leaves every cell of its lists 0.
#![tactic(auto)]

ghost use Rattle.std.specs.Prelude.{◌≡◌};
ghost use Rattle.lines.specs.Promise.{reading};
ghost use Rattle.ascii_lines.specs.Lines.{defined_at, input_at, inputs_at, stated_at, latches_at, input_pair_at, gate_at, gates_at};
ghost use Rattle.ascii_lines.specs.Promise.{stated_read, gate_read, section_seen, section_left, Stores, put_numbers, no_numbers, put_latches, no_latches, put_gates};

use lent::words::{fill, store};
use lines::{Broken, Reading};

// A latch's state, next state and reset, and the place after its line.
#[derive(Clone, Copy)]
pub struct StatedRead {
    pub state: u32,
    pub next: u32,
    pub reset: u32,
    pub after: usize,
}

// A gate's output and inputs, and the place after its line.
#[derive(Clone, Copy)]
pub struct GateRead {
    pub output: u32,
    pub first: u32,
    pub second: u32,
    pub after: usize,
}

// A literal that a line defines: 13 for 0, 14 for an odd one, and then 12 over the limit.
#[tactic(auto, unfolding(crate::specs::Lines::defined_at))]
fn defined(s: &[u8], at: usize, limit: u32) -> Result<Reading, Broken>
    ensures { result ≡ reading (defined_at s.now limit at) }
{
    let number = token::lit(s, at, limit as u64, true)?;
    Ok(Reading {
        value: number.value as u32,
        after: at + number.used,
    })
}

// An input's line.
#[tactic(auto, unfolding(crate::specs::Lines::input_at))]
fn input(s: &[u8], at: usize, limit: u32) -> Result<Reading, Broken>
    ensures { result ≡ reading (input_at s.now limit at) }
{
    let number = defined(s, at, limit)?;
    let after = lines::byte(s, number.after, b'\n')?;
    Ok(Reading {
        value: number.value,
        after,
    })
}

// Input lines, n of them, into a list, as far as there is room.
fn inputs_into(s: &[u8], at: usize, limit: u32, n: usize, list: &mut [u32]) -> Result<usize, Broken>
    ensures { Stores put_numbers (inputs_at s.now limit n at) result list.old list.new }
{
    let mut here = at;
    for i in 0..n {
        let line = input(s, here, limit)?;
        store(list, i, line.value);
        here = line.after;
    }
    Ok(here)
}

// Input lines, n of them, into a list, as far as there is room, whose other cells stay. A refusal leaves every cell 0.
pub fn inputs(s: &[u8], at: usize, limit: u32, n: usize, list: &mut [u32]) -> Result<usize, Broken>
    ensures { section_seen result list.new ≡ section_left put_numbers no_numbers (inputs_at s.now limit n at) list.old }
{
    let end = inputs_into(s, at, limit, n, list);
    if end.is_err() {
        fill(list, 0);
    }
    end
}

// A latch's line: its state, a space, and the rest as in the other form, where the state is the latch's literal.
#[tactic(auto, unfolding(crate::specs::Lines::stated_at))]
fn stated(s: &[u8], at: usize, limit: u32) -> Result<StatedRead, Broken>
    ensures { result ≡ stated_read (stated_at s.now limit at) }
{
    let state = defined(s, at, limit)?;
    let rest = lines::byte(s, state.after, b' ')?;
    let line = lines::latch(s, rest, limit, state.value)?;
    Ok(StatedRead {
        state: state.value,
        next: line.next,
        reset: line.reset,
        after: line.after,
    })
}

// Latch lines, n of them, into three lists, as far as there is room.
fn latches_into(
    s: &[u8],
    at: usize,
    limit: u32,
    n: usize,
    states: &mut [u32],
    nexts: &mut [u32],
    resets: &mut [u32],
) -> Result<usize, Broken>
    ensures { Stores put_latches (latches_at s.now limit n at) result (record {
      states = states.old;
      nexts = nexts.old;
      resets = resets.old;
    }) (record {
      states = states.new;
      nexts = nexts.new;
      resets = resets.new;
    }) }
{
    let mut here = at;
    for i in 0..n {
        let line = stated(s, here, limit)?;
        store(states, i, line.state);
        store(nexts, i, line.next);
        store(resets, i, line.reset);
        here = line.after;
    }
    Ok(here)
}

// Latch lines, n of them: states, next states and resets go into their lists, as far as there is room, and other cells stay. A refusal leaves every cell
// of the three lists 0.
pub fn latches(
    s: &[u8],
    at: usize,
    limit: u32,
    n: usize,
    states: &mut [u32],
    nexts: &mut [u32],
    resets: &mut [u32],
) -> Result<usize, Broken>
    ensures { section_seen result (record {
      states = states.new;
      nexts = nexts.new;
      resets = resets.new;
    }) ≡ section_left put_latches no_latches (latches_at s.now limit n at) (record {
      states = states.old;
      nexts = nexts.old;
      resets = resets.old;
    }) }
{
    let end = latches_into(s, at, limit, n, states, nexts, resets);
    if end.is_err() {
        fill(states, 0);
        fill(nexts, 0);
        fill(resets, 0);
    }
    end
}

// The rest of a gate's line, behind its output: its two inputs, a space before each, and the newline.
#[tactic(auto, unfolding(crate::specs::Lines::input_pair_at))]
fn input_pair(s: &[u8], at: usize, limit: u32, output: u32) -> Result<GateRead, Broken>
    ensures { result ≡ gate_read (input_pair_at s.now limit output at) }
{
    let first = lines::count(s, at, limit)?;
    let second = lines::count(s, first.after, limit)?;
    let after = lines::byte(s, second.after, b'\n')?;
    Ok(GateRead {
        output,
        first: first.value,
        second: second.value,
        after,
    })
}

// A gate's line: its output, which it defines, and its two inputs.
#[tactic(auto, unfolding(crate::specs::Lines::gate_at))]
fn gate(s: &[u8], at: usize, limit: u32) -> Result<GateRead, Broken>
    ensures { result ≡ gate_read (gate_at s.now limit at) }
{
    let output = defined(s, at, limit)?;
    input_pair(s, output.after, limit, output.value)
}

// Gate lines, m of them, three words each into a list that can count so many, as far as there is room.
fn gates_into(s: &[u8], at: usize, limit: u32, m: u32, list: &mut [u32]) -> Result<usize, Broken>
    ensures { Stores put_gates (gates_at s.now limit m at) result list.old list.new }
{
    let mut cell: usize = 0;
    let mut here = at;
    for j in 0..m {
        let line = gate(s, here, limit)?;
        store(list, cell, line.output);
        store(list, cell + 1, line.first);
        store(list, cell + 2, line.second);
        cell += 3;
        here = line.after;
    }
    Ok(here)
}

// Gate lines, m of them, three words each into a list, as far as there is room, whose other cells stay. A refusal leaves every cell 0.
pub fn gates(s: &[u8], at: usize, limit: u32, m: u32, list: &mut [u32]) -> Result<usize, Broken>
    ensures { section_seen result list.new ≡ section_left put_gates no_numbers (gates_at s.now limit m at) list.old }
{
    let end = gates_into(s, at, limit, m, list);
    if end.is_err() {
        fill(list, 0);
    }
    end
}
