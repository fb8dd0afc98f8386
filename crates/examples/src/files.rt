// Binary files: reads the one that stands in quotes on an example's line, and prints the line, the answer and the lists that were lent. These hold 77,
// so that a word written past those named would show.
use crate::fields::find;
use crate::say::Output;
use crate::{circuits, escapes, fields, records, say};

pub fn answer(to: &mut Output, line: &[u8]) {
    say::text(to, line);
    let mut file = [0u8; 64];
    let quote = find(line, 0, line.len(), b'"');
    let n = escapes::bytes(line, fields::sum(quote, 1), &mut file);
    let end = find(line, 0, line.len(), b';');
    in_lists(to, fields::byte(line, fields::sum(end, 2)), &file[..n]);
    say::line_end(to);
}

// The letter after a semicolon tells which lists are lent.
fn in_lists(to: &mut Output, kind: u8, file: &[u8]) {
    match kind {
        b'J' => just(to, file),
        b'L' => longer(to, file),
        b'N' => short_nexts(to, file),
        b'P' => short_resets(to, file),
        b'G' => short_gates(to, file),
        b'S' => short_sizes(to, file),
        b'R' => short_roots(to, file),
        b'A' => short_answer(to, file),
        _ => eight(to, file),
    }
}

// Lists of eight words, whose fronts are printed if the file is taken.
fn eight(to: &mut Output, file: &[u8]) {
    let mut nexts = [77u32; 8];
    let mut resets = [77u32; 8];
    let mut gates = [77u32; 8];
    let mut sizes = [77u32; 8];
    let mut roots = [77u32; 8];
    let number = read(
        to,
        file,
        &mut nexts,
        &mut resets,
        &mut gates,
        &mut sizes,
        &mut roots,
    );
    if number == 0 {
        fronts(to, &nexts, &resets, &gates, &sizes, &roots);
    }
}

// This function and the seven after it print every word of each list. Here the lists have just the words that are needed for two latches, two gates, two
// justice sets and seven roots.
fn just(to: &mut Output, file: &[u8]) {
    let mut nexts = [77u32; 2];
    let mut resets = [77u32; 2];
    let mut gates = [77u32; 4];
    let mut sizes = [77u32; 2];
    let mut roots = [77u32; 7];
    whole(
        to,
        file,
        &mut nexts,
        &mut resets,
        &mut gates,
        &mut sizes,
        &mut roots,
    );
}

fn longer(to: &mut Output, file: &[u8]) {
    let mut nexts = [77u32; 4];
    let mut resets = [77u32; 4];
    let mut gates = [77u32; 6];
    let mut sizes = [77u32; 3];
    let mut roots = [77u32; 8];
    whole(
        to,
        file,
        &mut nexts,
        &mut resets,
        &mut gates,
        &mut sizes,
        &mut roots,
    );
}

fn short_nexts(to: &mut Output, file: &[u8]) {
    let mut nexts = [77u32; 1];
    let mut resets = [77u32; 2];
    let mut gates = [77u32; 4];
    let mut sizes = [77u32; 2];
    let mut roots = [77u32; 7];
    whole(
        to,
        file,
        &mut nexts,
        &mut resets,
        &mut gates,
        &mut sizes,
        &mut roots,
    );
}

fn short_resets(to: &mut Output, file: &[u8]) {
    let mut nexts = [77u32; 2];
    let mut resets = [77u32; 1];
    let mut gates = [77u32; 4];
    let mut sizes = [77u32; 2];
    let mut roots = [77u32; 7];
    whole(
        to,
        file,
        &mut nexts,
        &mut resets,
        &mut gates,
        &mut sizes,
        &mut roots,
    );
}

fn short_gates(to: &mut Output, file: &[u8]) {
    let mut nexts = [77u32; 2];
    let mut resets = [77u32; 2];
    let mut gates = [77u32; 3];
    let mut sizes = [77u32; 2];
    let mut roots = [77u32; 7];
    whole(
        to,
        file,
        &mut nexts,
        &mut resets,
        &mut gates,
        &mut sizes,
        &mut roots,
    );
}

fn short_sizes(to: &mut Output, file: &[u8]) {
    let mut nexts = [77u32; 2];
    let mut resets = [77u32; 2];
    let mut gates = [77u32; 4];
    let mut sizes = [77u32; 1];
    let mut roots = [77u32; 7];
    whole(
        to,
        file,
        &mut nexts,
        &mut resets,
        &mut gates,
        &mut sizes,
        &mut roots,
    );
}

fn short_roots(to: &mut Output, file: &[u8]) {
    let mut nexts = [77u32; 2];
    let mut resets = [77u32; 2];
    let mut gates = [77u32; 4];
    let mut sizes = [77u32; 2];
    let mut roots = [77u32; 6];
    whole(
        to,
        file,
        &mut nexts,
        &mut resets,
        &mut gates,
        &mut sizes,
        &mut roots,
    );
}

fn short_answer(to: &mut Output, file: &[u8]) {
    let mut nexts = [77u32; 2];
    let mut resets = [77u32; 2];
    let mut gates = [77u32; 4];
    let mut sizes = [77u32; 2];
    let mut roots = [77u32; 7];
    let mut words = [77u64; 10];
    let number = file_words::read(
        file,
        &mut nexts,
        &mut resets,
        &mut gates,
        &mut sizes,
        &mut roots,
        &mut words,
    );
    said(to, number, &words);
    wholes(to, &nexts, &resets, &gates, &sizes, &roots);
}

// Reads the file, and prints the answer and every word of each list.
fn whole(
    to: &mut Output,
    file: &[u8],
    nexts: &mut [u32],
    resets: &mut [u32],
    gates: &mut [u32],
    sizes: &mut [u32],
    roots: &mut [u32],
) {
    read(to, file, nexts, resets, gates, sizes, roots);
    wholes(to, nexts, resets, gates, sizes, roots);
}

// Reads the file, prints the answer, and answers its number.
fn read(
    to: &mut Output,
    file: &[u8],
    nexts: &mut [u32],
    resets: &mut [u32],
    gates: &mut [u32],
    sizes: &mut [u32],
    roots: &mut [u32],
) -> u32 {
    let mut words = [77u64; 12];
    let number = file_words::read(file, nexts, resets, gates, sizes, roots, &mut words);
    said(to, number, &words);
    number
}

// `: takes BYTES bytes` with M, I, L and A, the numbers of roots of each kind, and of justice sets; or what refused it.
pub fn said(to: &mut Output, number: u32, words: &[u64]) {
    if number == 0 {
        part(to, b": takes ", words, 0);
        say::text(to, b" bytes");
        counts(to, words);
        return;
    }
    say::counted(to, b": refused ", number as u64);
    part(to, b" at ", words, 0);
}

fn counts(to: &mut Output, words: &[u64]) {
    part(to, b"; M ", words, 1);
    part(to, b" I ", words, 2);
    part(to, b" L ", words, 3);
    part(to, b" A ", words, 4);
    part(to, b"; kinds ", words, 5);
    part(to, b" ", words, 6);
    part(to, b" ", words, 7);
    part(to, b" ", words, 8);
    part(to, b" ", words, 9);
    part(to, b"; sets ", words, 10);
}

// A text, and the word at a place after it.
pub fn part(to: &mut Output, s: &[u8], words: &[u64], at: usize) {
    if at < words.len() {
        say::counted(to, s, words[at]);
    }
}

// Every word of each list.
fn wholes(
    to: &mut Output,
    nexts: &[u32],
    resets: &[u32],
    gates: &[u32],
    sizes: &[u32],
    roots: &[u32],
) {
    records::cells(to, b"; nexts", nexts);
    records::cells(to, b"; resets", resets);
    records::cells(to, b"; gates", gates);
    records::cells(to, b"; sizes", sizes);
    records::cells(to, b"; roots", roots);
}

// The words of each list up to the first 77.
fn fronts(
    to: &mut Output,
    nexts: &[u32],
    resets: &[u32],
    gates: &[u32],
    sizes: &[u32],
    roots: &[u32],
) {
    circuits::words(to, b"; nexts", nexts);
    circuits::words(to, b"; resets", resets);
    circuits::words(to, b"; gates", gates);
    circuits::words(to, b"; sizes", sizes);
    circuits::words(to, b"; roots", roots);
}
