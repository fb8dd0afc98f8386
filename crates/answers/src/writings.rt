// Questions about writing: `write`, the bytes that are lent, the number of inputs, and behind K, N, T, G, S and R the counts, next states, resets, gates, justice sizes
// and roots; `textwrite` and the same, for a text; or `again` and the bytes of a binary file, which is read and written into as many bytes. The answer is `W`, the
// number and the two words of `file_words::write` or `file_words::write_text`, and every lent byte, which is 165 where nothing is written. A file that is
// refused is answered `R`, the number and the place.
ghost use Rattle.std.specs.Prelude.{◌<◌, ◌≤◌, length, ◌≡◌, take};

use crate::say::Output;
use crate::{fields, say};

pub fn answer(to: &mut Output, line: &[u8], as_text: bool) {
    let mut counts = [0u32; 8];
    let mut nexts = [0u32; 16];
    let k = fields::list(line, b'K', &mut counts);
    let n = fields::list(line, b'N', &mut nexts);
    with_resets(to, line, as_text, &counts[..k], &nexts[..n]);
}

fn with_resets(to: &mut Output, line: &[u8], as_text: bool, counts: &[u32], nexts: &[u32]) {
    let mut resets = [0u32; 16];
    let t = fields::list(line, b'T', &mut resets);
    with_gates(to, line, as_text, counts, nexts, &resets[..t]);
}

fn with_gates(
    to: &mut Output,
    line: &[u8],
    as_text: bool,
    counts: &[u32],
    nexts: &[u32],
    resets: &[u32],
) {
    let mut gates = [0u32; 128];
    let mut sizes = [0u32; 8];
    let mut roots = [0u32; 32];
    let g = fields::list(line, b'G', &mut gates);
    let s = fields::list(line, b'S', &mut sizes);
    let r = fields::list(line, b'R', &mut roots);
    let room = fields::number(line, fields::after_word(line));
    let inputs = fields::number(line, room.next);
    lent(
        to,
        as_text,
        room.value as usize,
        (inputs.value % 4294967296) as u32,
        counts,
        nexts,
        resets,
        &gates[..g],
        &sizes[..s],
        &roots[..r],
    );
}

// Writes the circuit into so many bytes.
fn lent(
    to: &mut Output,
    as_text: bool,
    room: usize,
    inputs: u32,
    counts: &[u32],
    nexts: &[u32],
    resets: &[u32],
    gates: &[u32],
    sizes: &[u32],
    roots: &[u32],
) {
    let mut out = [165u8; 256];
    let n = bytes_front(room, &out);
    if as_text {
        text_written(
            to,
            inputs,
            counts,
            nexts,
            resets,
            gates,
            sizes,
            roots,
            &mut out[..n],
        );
    } else {
        written(
            to,
            inputs,
            counts,
            nexts,
            resets,
            gates,
            sizes,
            roots,
            &mut out[..n],
        );
    }
}

// Writes the circuit as a binary file, and answers with what is written.
fn written(
    to: &mut Output,
    inputs: u32,
    counts: &[u32],
    nexts: &[u32],
    resets: &[u32],
    gates: &[u32],
    sizes: &[u32],
    roots: &[u32],
    out: &mut [u8],
) {
    let mut words = [0u64; 2];
    let number = file_words::write(
        inputs, counts, nexts, resets, gates, sizes, roots, out, &mut words,
    );
    told(to, number, words, out);
}

// Writes the circuit as a text, and answers with what is written.
fn text_written(
    to: &mut Output,
    inputs: u32,
    counts: &[u32],
    nexts: &[u32],
    resets: &[u32],
    gates: &[u32],
    sizes: &[u32],
    roots: &[u32],
    out: &mut [u8],
) {
    let mut words = [0u64; 2];
    let number = file_words::write_text(
        inputs, counts, nexts, resets, gates, sizes, roots, out, &mut words,
    );
    told(to, number, words, out);
}

fn told(to: &mut Output, number: u32, words: [u64; 2], out: &[u8]) {
    say::written(to, number, words);
    say::hex(to, out);
    say::text(to, b"\n");
}

pub fn again(to: &mut Output, line: &[u8]) {
    let mut file = [0u8; 256];
    let n = fields::bytes(line, fields::after_word(line), &mut file);
    read(to, &file[..n]);
}

fn read(to: &mut Output, file: &[u8]) {
    let mut nexts = [0u32; 16];
    let mut resets = [0u32; 16];
    let mut gates = [0u32; 128];
    let mut sizes = [0u32; 8];
    let mut roots = [0u32; 32];
    let mut words = [0u64; 11];
    let number = file_words::read(
        file,
        &mut nexts,
        &mut resets,
        &mut gates,
        &mut sizes,
        &mut roots,
        &mut words,
    );
    if number == 0 {
        fronts(
            to,
            file.len(),
            &words,
            &nexts,
            &resets,
            &gates,
            &sizes,
            &roots,
        );
    } else {
        say::refusal(to, number as u64, words[0]);
    }
}

// Writes the circuit of a file's words and of the fronts of its lists.
fn fronts(
    to: &mut Output,
    room: usize,
    words: &[u64],
    nexts: &[u32],
    resets: &[u32],
    gates: &[u32],
    sizes: &[u32],
    roots: &[u32],
) {
    let outputs = count(words, 5);
    let bad = count(words, 6);
    let constraints = count(words, 7);
    let fairness = count(words, 8);
    let justice = count(words, 9);
    let counts = [outputs, bad, constraints, fairness, justice];
    let all = outputs + bad + constraints + fairness + justice;
    let l = front(count(words, 3) as usize, nexts);
    let t = front(count(words, 3) as usize, resets);
    let g = front((count(words, 4) * 2) as usize, gates);
    let s = front(count(words, 10) as usize, sizes);
    let r = front(all as usize, roots);
    lent(
        to,
        false,
        room,
        count(words, 2),
        &counts,
        &nexts[..l],
        &resets[..t],
        &gates[..g],
        &sizes[..s],
        &roots[..r],
    );
}

// The word at a place, which is a count of a file's; 0 past the end.
fn count(words: &[u64], at: usize) -> u32
    ensures { result < 1048576 }
{
    if at < words.len() {
        (words[at] % 1048576) as u32
    } else {
        0
    }
}

// The number, or the list's length where that is smaller; and the same of bytes.
fn front(n: usize, list: &[u32]) -> usize
    ensures { (result ≤ length list.now) × (result ≡ length (take result list.now)) }
{
    if n < list.len() { n } else { list.len() }
}

fn bytes_front(n: usize, list: &[u8]) -> usize
    ensures { (result ≤ length list.now) × (result ≡ length (take result list.now)) }
{
    if n < list.len() { n } else { list.len() }
}
