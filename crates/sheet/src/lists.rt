// From the codes of a sheet to the lists that renumbering takes, and to the text of its answer.
ghost use Rattle.std.specs.Prelude.{◌≡◌, ◌*◌, length, take};
ghost use Rattle.circuit.specs.Circuit.{renumber};
ghost use Rattle.sheet_read.specs.Sheet.{code_count};
ghost use Rattle.sheet.specs.Circuit.{states_of, nexts_of, circuit_on};
ghost use Rattle.sheet.specs.Report.{out_text};
ghost use Rattle.text.specs.Put.{Puts};
ghost use Rattle.sheet_read.specs.Promise.{Taken};
ghost use Rattle.sheet.specs.Promise.{Words, circuit_in, Shaped, Roomy};

use crate::{filled, header};
use circuit::{CircuitLists, CircuitRoom};
use sheet_lines::{print_ordered, print_refused, put_refused};
use sheet_read::first_over;

// The codes as words.
fn narrow(codes: &[u64], words: &mut [u32])
    requires { (length words.old ≡ length codes.now) × Words codes.now }
    ensures { words.new ≡ codes.now }
{
    for (i, word) in words.iter_mut().enumerate() {
        *word = codes[i] as u32;
    }
}

// The states and the nexts of latches that stand in turn.
fn split(latches: &[u32], states: &mut [u32], nexts: &mut [u32])
    requires { (length latches.now ≡ 2 * length states.old) × (length nexts.old ≡ length states.old) }
    ensures { (states.new ≡ states_of latches.now) × (nexts.new ≡ nexts_of latches.now) }
{
    for j in 0..states.len() {
        states[j] = latches[2 * j];
        nexts[j] = latches[2 * j + 1];
    }
}

// Renumbers the circuit in the lent lists, and prints the answer.
fn report_answer(
    header: &[u64],
    inputs: &[u32],
    states: &[u32],
    nexts: &[u32],
    gates: &[u32],
    roots: &[u32],
    map: &mut [u32],
    next_images: &mut [u32],
    reset_images: &mut [u32],
    root_images: &mut [u32],
    gates_out: &mut [u32],
    scratch: &mut [u32],
    out: &mut [u8],
) -> usize
    requires { Shaped header.now inputs.now states.now nexts.now gates.now roots.now
        × Roomy map.old next_images.old reset_images.old root_images.old gates_out.old scratch.old }
    ensures { Puts out.old 0 (out_text
        (circuit_in header.now inputs.now states.now nexts.now gates.now roots.now)
        (renumber (circuit_in header.now inputs.now states.now nexts.now gates.now
        roots.now))) out.new result }
{
    let circuit = header::circuit_on(header);
    // a sheet has no resets: each latch of the largest circuit has 0
    let resets: [u32; 1023] = filled(0);
    let latch_count = states.len();
    let lists = CircuitLists {
        inputs,
        states,
        nexts,
        resets: &resets[..latch_count],
        gates,
        roots,
    };
    let room = CircuitRoom {
        map,
        next_images,
        reset_images,
        root_images,
        gates_out,
        scratch,
    };
    let answer = aig::renumber(circuit, &lists, room);
    match answer {
        Ok(summary) => {
            let input_count = inputs.len() as u32;
            let root_count = roots.len();
            let gate_words = 2 * (summary.made as usize);
            print_ordered(
                summary,
                input_count,
                &next_images[..latch_count],
                &gates_out[..gate_words],
                &root_images[..root_count],
                out,
            )
        }
        Err(why) => print_refused(why, out),
    }
}

// The same, with room for the largest circuit on a sheet.
fn report_circuit(
    header: &[u64],
    inputs: &[u32],
    states: &[u32],
    nexts: &[u32],
    gates: &[u32],
    roots: &[u32],
    out: &mut [u8],
) -> usize
    requires { Shaped header.now inputs.now states.now nexts.now gates.now roots.now }
    ensures { Puts out.old 0 (out_text
        (circuit_in header.now inputs.now states.now nexts.now gates.now roots.now)
        (renumber (circuit_in header.now inputs.now states.now nexts.now gates.now
        roots.now))) out.new result }
{
    let mut map: [u32; 1024] = filled(0);
    let mut next_images: [u32; 1023] = filled(0);
    let mut reset_images: [u32; 1023] = filled(0);
    let mut root_images: [u32; 1023] = filled(0);
    let mut gates_out: [u32; 2046] = filled(0);
    let mut scratch: [u32; 6141] = filled(0);
    report_answer(
        header,
        inputs,
        states,
        nexts,
        gates,
        roots,
        &mut map,
        &mut next_images,
        &mut reset_images,
        &mut root_images,
        &mut gates_out,
        &mut scratch,
        out,
    )
}

// The same of the words of a sheet, its lists in a row.
fn report_words(header: &[u64], words: &[u32], out: &mut [u8]) -> usize
    requires { Taken header.now × (length words.now ≡ code_count header.now) }
    ensures { Puts out.old 0 (out_text (circuit_on header.now words.now)
        (renumber (circuit_on header.now words.now))) out.new result }
{
    let inputs_end = header[1] as usize;
    let gates_end = inputs_end + 3 * (header[3] as usize);
    let latches = header[2] as usize;
    let latches_end = gates_end + 2 * latches;
    let mut states: [u32; 1023] = filled(0);
    let mut nexts: [u32; 1023] = filled(0);
    split(
        &words[gates_end..latches_end],
        &mut states[..latches],
        &mut nexts[..latches],
    );
    report_circuit(
        header,
        &words[..inputs_end],
        &states[..latches],
        &nexts[..latches],
        &words[inputs_end..gates_end],
        &words[latches_end..],
        out,
    )
}

// The same of the codes of a sheet: first check 4, since a code may be too big for a word.
pub fn report_codes(header: &[u64], codes: &[u64], out: &mut [u8]) -> usize
    requires { Taken header.now × (length codes.now ≡ 7161) }
    ensures { Puts out.old 0 (out_text (circuit_on header.now (take (code_count header.now) codes.now))
        (renumber (circuit_on header.now (take (code_count header.now) codes.now)))) out.new result }
{
    let count = header::code_count(header);
    match first_over(&codes[..count], 2 * header[0] + 1) {
        None => {
            let mut words: [u32; 7161] = filled(0);
            narrow(&codes[..count], &mut words[..count]);
            report_words(header, &words[..count], out)
        }
        Some(code) => put_refused(out, 4, code),
    }
}
