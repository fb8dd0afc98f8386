// Text files: reads the one that stands in quotes on an example's line, and prints the line, the answer and the lists that were lent. These hold 77, so that
// a word written past those named would show.
ghost use Rattle.std.specs.Prelude.{◌≤◌, length, ◌≡◌, take};

use crate::fields::find;
use crate::say::Output;
use crate::{circuits, escapes, fields, files, records, say, writings};

pub fn answer(to: &mut Output, line: &[u8]) {
    say::text(to, line);
    let mut file = [0u8; 96];
    let quote = find(line, 0, line.len(), b'"');
    let n = escapes::bytes(line, fields::sum(quote, 1), &mut file);
    let end = find(line, 0, line.len(), b';');
    in_lists(to, fields::byte(line, fields::sum(end, 2)), &file[..n]);
    say::line_end(to);
}

// The letter after a semicolon tells which lists are lent.
fn in_lists(to: &mut Output, kind: u8, file: &[u8]) {
    match kind {
        0 => fronts(to, file),
        b'L' => longer(to, file),
        b'A' => short_answer(to, file),
        _ => just(to, kind, file),
    }
}

// Lists of nine words, of twelve for gates, whose fronts are printed if the text is taken.
fn fronts(to: &mut Output, file: &[u8]) {
    let mut inputs = [77u32; 9];
    let mut states = [77u32; 9];
    let mut nexts = [77u32; 9];
    let mut resets = [77u32; 9];
    let mut gates = [77u32; 12];
    let mut sizes = [77u32; 9];
    let mut roots = [77u32; 9];
    let mut words = [77u64; 12];
    let number = file_words::read_text(
        file,
        &mut inputs,
        &mut states,
        &mut nexts,
        &mut resets,
        &mut gates,
        &mut sizes,
        &mut roots,
        &mut words,
    );
    files::said(to, number, &words);
    if number == 0 {
        circuits::words(to, b"; inputs", &inputs);
        circuits::words(to, b"; states", &states);
        circuits::words(to, b"; nexts", &nexts);
        circuits::words(to, b"; resets", &resets);
        circuits::words(to, b"; gates", &gates);
        circuits::words(to, b"; sizes", &sizes);
        circuits::words(to, b"; roots", &roots);
    }
}

// Lists with just the words that are needed for an input, two latches, two gates, two justice sets and seven roots; the one that the letter names has a word
// less. This function and the two after it print every word of each list.
fn just(to: &mut Output, kind: u8, file: &[u8]) {
    let mut inputs = [77u32; 1];
    let mut states = [77u32; 2];
    let mut nexts = [77u32; 2];
    let mut resets = [77u32; 2];
    let mut gates = [77u32; 6];
    let mut sizes = [77u32; 2];
    let mut roots = [77u32; 7];
    let mut words = [77u64; 12];
    let i = lent(kind, b'I', &inputs);
    let t = lent(kind, b'T', &states);
    let n = lent(kind, b'N', &nexts);
    let p = lent(kind, b'P', &resets);
    let g = lent(kind, b'G', &gates);
    let s = lent(kind, b'S', &sizes);
    let r = lent(kind, b'R', &roots);
    whole(
        to,
        file,
        &mut inputs[..i],
        &mut states[..t],
        &mut nexts[..n],
        &mut resets[..p],
        &mut gates[..g],
        &mut sizes[..s],
        &mut roots[..r],
        &mut words,
    );
}

// How many words of the list are lent: one less where its letter is named.
fn lent(kind: u8, letter: u8, list: &[u32]) -> usize
    ensures { (result ≤ length list.now) × (result ≡ length (take result list.now)) }
{
    let fewer = if kind == letter { 1 } else { 0 };
    writings::front(less(list.len(), fewer), list)
}

// One number less another; 0 where that is larger.
fn less(n: usize, by: usize) -> usize {
    if by < n { n - by } else { 0 }
}

fn longer(to: &mut Output, file: &[u8]) {
    let mut inputs = [77u32; 2];
    let mut states = [77u32; 3];
    let mut nexts = [77u32; 3];
    let mut resets = [77u32; 3];
    let mut gates = [77u32; 7];
    let mut sizes = [77u32; 3];
    let mut roots = [77u32; 8];
    let mut words = [77u64; 12];
    whole(
        to,
        file,
        &mut inputs,
        &mut states,
        &mut nexts,
        &mut resets,
        &mut gates,
        &mut sizes,
        &mut roots,
        &mut words,
    );
}

// Ten words for the answer are too few.
fn short_answer(to: &mut Output, file: &[u8]) {
    let mut inputs = [77u32; 1];
    let mut states = [77u32; 2];
    let mut nexts = [77u32; 2];
    let mut resets = [77u32; 2];
    let mut gates = [77u32; 6];
    let mut sizes = [77u32; 2];
    let mut roots = [77u32; 7];
    let mut words = [77u64; 10];
    whole(
        to,
        file,
        &mut inputs,
        &mut states,
        &mut nexts,
        &mut resets,
        &mut gates,
        &mut sizes,
        &mut roots,
        &mut words,
    );
}

// Reads the text, and prints the answer and every word of each list.
fn whole(
    to: &mut Output,
    file: &[u8],
    inputs: &mut [u32],
    states: &mut [u32],
    nexts: &mut [u32],
    resets: &mut [u32],
    gates: &mut [u32],
    sizes: &mut [u32],
    roots: &mut [u32],
    words: &mut [u64],
) {
    read(
        to, file, inputs, states, nexts, resets, gates, sizes, roots, words,
    );
    cells(to, inputs, states, nexts, resets, gates, sizes, roots);
}

// Reads the text, and prints the answer.
fn read(
    to: &mut Output,
    file: &[u8],
    inputs: &mut [u32],
    states: &mut [u32],
    nexts: &mut [u32],
    resets: &mut [u32],
    gates: &mut [u32],
    sizes: &mut [u32],
    roots: &mut [u32],
    words: &mut [u64],
) {
    let number = file_words::read_text(
        file, inputs, states, nexts, resets, gates, sizes, roots, words,
    );
    files::said(to, number, words);
}

// Every word of each list.
fn cells(
    to: &mut Output,
    inputs: &[u32],
    states: &[u32],
    nexts: &[u32],
    resets: &[u32],
    gates: &[u32],
    sizes: &[u32],
    roots: &[u32],
) {
    records::cells(to, b"; inputs", inputs);
    records::cells(to, b"; states", states);
    records::cells(to, b"; nexts", nexts);
    records::cells(to, b"; resets", resets);
    records::cells(to, b"; gates", gates);
    records::cells(to, b"; sizes", sizes);
    records::cells(to, b"; roots", roots);
}
