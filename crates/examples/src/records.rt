// Gate records: two inputs, two gates and a root each, renumbered with hashing, and the answer and the lists that were lent. Each is a word longer than
// asked, but for a last list that is too short, and holds 77 where nothing is written.
use crate::say::Output;
use crate::{circuits, say};
use aig_records::GateRecord;
use circuit::{CircuitLists, CircuitRecord, CircuitRoom};
use lit::{Lit, Var};

pub fn run(to: &mut Output) {
    twins(to);
    again(to);
    over(to);
    short(to);
}

// Gates of one pair, in either order: hashing makes one.
fn twins(to: &mut Output) {
    let inputs: [u32; 2] = [2, 4];
    let mut flat = [77u32; 7];
    renumbered(to, b"twins: ", &inputs, gate(8, 4, 2), &mut flat);
}

fn again(to: &mut Output) {
    let inputs: [u32; 2] = [2, 3];
    let mut flat = [77u32; 7];
    renumbered(to, b"an input again: ", &inputs, gate(8, 4, 2), &mut flat);
}

fn over(to: &mut Output) {
    let inputs: [u32; 2] = [2, 4];
    let mut flat = [77u32; 7];
    renumbered(to, b"a code over 9: ", &inputs, gate(8, 4, 10), &mut flat);
}

fn short(to: &mut Output) {
    let inputs: [u32; 2] = [2, 4];
    let mut flat = [77u32; 5];
    renumbered(
        to,
        b"a word too few for the records: ",
        &inputs,
        gate(8, 4, 2),
        &mut flat,
    );
}

fn gate(output: u32, first: u32, second: u32) -> GateRecord {
    GateRecord {
        output: Lit::from_code(output),
        first: Lit::from_code(first),
        second: Lit::from_code(second),
    }
}

fn circuit() -> CircuitRecord {
    CircuitRecord {
        top: Var::from_index(4),
        counts: [2, 0, 0, 0, 0],
        trim: false,
        hash: true,
        fold: false,
    }
}

fn renumbered(to: &mut Output, name: &[u8], inputs: &[u32], second: GateRecord, flat: &mut [u32]) {
    let first = gate(6, 2, 4);
    let gates: [GateRecord; 2] = [first, second];
    let latches: [u32; 0] = [];
    let roots: [u32; 2] = [6, 8];
    let mut map = [77u32; 6];
    let mut next_images = [77u32; 1];
    let mut reset_images = [77u32; 1];
    let mut root_images = [77u32; 3];
    let mut gates_out = [77u32; 5];
    let mut scratch = [77u32; 22];
    let lists = CircuitLists {
        inputs,
        states: &latches,
        nexts: &latches,
        resets: &latches,
        gates: &[],
        roots: &roots,
    };
    let room = CircuitRoom {
        map: &mut map,
        next_images: &mut next_images,
        reset_images: &mut reset_images,
        root_images: &mut root_images,
        gates_out: &mut gates_out,
        scratch: &mut scratch,
    };
    let answer = plain::records::renumber_two(circuit(), &lists, gates, room, flat);
    say::text(to, name);
    circuits::outcome(to, answer);
    say::line_end(to);
    words(to, b"  map", &map);
    words(to, b"  next images", &next_images);
    words(to, b"  reset images", &reset_images);
    words(to, b"  root images", &root_images);
    words(to, b"  gates", &gates_out);
    words(to, b"  scratch", &scratch);
    words(to, b"  records laid flat", flat);
}

fn words(to: &mut Output, name: &[u8], list: &[u32]) {
    cells(to, name, list);
    say::line_end(to);
}

// The name, and every word of the list.
pub fn cells(to: &mut Output, name: &[u8], list: &[u32]) {
    say::text(to, name);
    for w in list {
        word(to, *w);
    }
}

fn word(to: &mut Output, w: u32) {
    say::counted(to, b" ", w as u64);
}
