// Circuits: renumbers the one on an example's line and prints the answer and the fronts of the lent lists. These are longer than they have to
// be and hold 77, so that a word written past those named would show. Where the line asks for literals, their images in the map follow.
use crate::say::Output;
use crate::{lists, say};
use circuit::{CircuitLists, CircuitRecord, CircuitRoom, Refusal, Summary};
use lit::{Lit, Var};

// This function and the three after it read the line's lists.
pub fn answer(to: &mut Output, line: &[u8]) {
    let mut inputs = [0u32; 4];
    let n = lists::list(line, b'I', &mut inputs);
    with_latches(to, line, &inputs[..n]);
}

fn with_latches(to: &mut Output, line: &[u8], inputs: &[u32]) {
    let mut states = [0u32; 4];
    let mut nexts = [0u32; 4];
    let s = lists::list(line, b'L', &mut states);
    let n = lists::list(line, b'N', &mut nexts);
    with_resets(to, line, inputs, &states[..s], &nexts[..n]);
}

// Resets stand behind a P; where the line has none, each latch has 0.
fn with_resets(to: &mut Output, line: &[u8], inputs: &[u32], states: &[u32], nexts: &[u32]) {
    let mut resets = [0u32; 4];
    let p = lists::list_or(line, b'P', &mut resets, states.len());
    with_gates(to, line, inputs, states, nexts, &resets[..p]);
}

fn with_gates(
    to: &mut Output,
    line: &[u8],
    inputs: &[u32],
    states: &[u32],
    nexts: &[u32],
    resets: &[u32],
) {
    let mut gates = [0u32; 12];
    let mut roots = [0u32; 8];
    let g = lists::list(line, b'G', &mut gates);
    let r = lists::list(line, b'R', &mut roots);
    shown(
        to,
        line,
        record(line, r),
        inputs,
        states,
        nexts,
        resets,
        &gates[..g],
        &roots[..r],
    );
}

// The circuit but for its lists.
fn record(line: &[u8], roots: usize) -> CircuitRecord {
    let counts = kinds(line, roots);
    CircuitRecord {
        top: Var::from_index(lists::one(line, b'V')),
        counts,
        trim: lists::named(line, b'T'),
        hash: lists::named(line, b'H'),
        fold: lists::named(line, b'F'),
    }
}

// How many roots there are of each kind: outputs, bad states, constraints, fairness, justice. Where the line does not say, all are outputs.
fn kinds(line: &[u8], roots: usize) -> [u32; 5] {
    let mut counts = [0u32; 5];
    if lists::list(line, b'K', &mut counts) == 0 {
        counts[0] = (roots % 4294967296) as u32;
    }
    counts
}

fn shown(
    to: &mut Output,
    line: &[u8],
    record: CircuitRecord,
    inputs: &[u32],
    states: &[u32],
    nexts: &[u32],
    resets: &[u32],
    gates: &[u32],
    roots: &[u32],
) {
    let mut map = [77u32; 12];
    let mut next_images = [77u32; 4];
    let mut reset_images = [77u32; 4];
    let mut root_images = [77u32; 8];
    let mut gates_out = [77u32; 12];
    let mut scratch = [77u32; 64];
    let lists = CircuitLists {
        inputs,
        states,
        nexts,
        resets,
        gates,
        roots,
    };
    let room = CircuitRoom {
        map: &mut map,
        next_images: &mut next_images,
        reset_images: &mut reset_images,
        root_images: &mut root_images,
        gates_out: &mut gates_out,
        scratch: &mut scratch,
    };
    let answer = aig::renumber(record, &lists, room);
    printed(
        to,
        answer,
        &map,
        &gates_out,
        &next_images,
        &reset_images,
        &root_images,
    );
    asked(to, b"; images", line, &map);
    say::line_end(to);
}

fn printed(
    to: &mut Output,
    answer: Result<Summary, Refusal>,
    map: &[u32],
    gates: &[u32],
    nexts: &[u32],
    resets: &[u32],
    roots: &[u32],
) {
    outcome(to, answer);
    words(to, b"; map", map);
    words(to, b"; gates", gates);
    words(to, b"; nexts", nexts);
    words(to, b"; resets", resets);
    words(to, b"; roots", roots);
}

// Images in a map that stands on the line.
pub fn in_map(to: &mut Output, line: &[u8]) {
    let mut map = [0u32; 4];
    let n = lists::list(line, b'M', &mut map);
    asked(to, b"images", line, &map[..n]);
    say::line_end(to);
}

// The name, and the images of the literals that the line asks for, if it asks.
fn asked(to: &mut Output, name: &[u8], line: &[u8], map: &[u32]) {
    if lists::named(line, b'Q') {
        let mut codes = [0u32; 8];
        let n = lists::list(line, b'Q', &mut codes);
        say::text(to, name);
        images(
            to,
            map,
            Var::from_index(lists::one(line, b'V')),
            &codes[..n],
        );
    }
}

fn images(to: &mut Output, map: &[u32], top: Var, codes: &[u32]) {
    for code in codes {
        image(to, aig::lookup(map, top, Lit::from_code(*code)));
    }
}

// A space and the image's code; `-` where there is none.
fn image(to: &mut Output, found: Option<Lit>) {
    match found {
        Some(code) => say::counted(to, b" ", code.code() as u64),
        None => say::text(to, b" -"),
    }
}

pub fn outcome(to: &mut Output, answer: Result<Summary, Refusal>) {
    match answer {
        Ok(summary) => {
            say::counted(to, b"made ", summary.made as u64);
            say::counted(to, b", largest ", summary.top.index() as u64);
        }
        Err(why) => {
            say::counted(to, b"refused ", refusals::number(why) as u64);
            say::counted(to, b" ", refusals::literal(why).code() as u64);
        }
    }
}

// The name, and the words up to the first 77.
pub fn words(to: &mut Output, name: &[u8], list: &[u32]) {
    say::text(to, name);
    for w in list {
        if *w == 77 {
            return;
        }
        word(to, *w);
    }
}

// A space and the word; `-` for the word that stands for no image.
fn word(to: &mut Output, w: u32) {
    if w == 4294967295 {
        say::text(to, b" -");
        return;
    }
    say::counted(to, b" ", w as u64);
}
