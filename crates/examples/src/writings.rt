// Writing: the ordered circuit on an example's line, or the one that is read of the file in quotes there, is written into lent bytes. The line is printed,
// the answer, the answer's words and all bytes that were lent. The words are 77 and the bytes `~` before, so that one written past those named would show.
ghost use Rattle.std.specs.Prelude.{◌<◌, ◌≤◌, length, ◌≡◌, take};

use crate::fields::find;
use crate::say::Output;
use crate::{escapes, fields, files, lists, say};

// This function and the two after it read the line's lists.
pub fn answer(to: &mut Output, line: &[u8]) {
    say::text(to, line);
    say::text(to, b": ");
    let mut nexts = [0u32; 4];
    let mut gates = [0u32; 8];
    let n = lists::list(line, b'N', &mut nexts);
    let g = lists::list(line, b'G', &mut gates);
    with_resets(to, line, &nexts[..n], &gates[..g]);
    say::line_end(to);
}

// Resets stand behind a P; where the line has none, each latch has 0.
fn with_resets(to: &mut Output, line: &[u8], nexts: &[u32], gates: &[u32]) {
    let mut resets = [0u32; 4];
    let p = lists::list_or(line, b'P', &mut resets, nexts.len());
    with_roots(to, line, nexts, &resets[..p], gates);
}

fn with_roots(to: &mut Output, line: &[u8], nexts: &[u32], resets: &[u32], gates: &[u32]) {
    let mut sizes = [0u32; 4];
    let mut roots = [0u32; 8];
    let s = lists::list(line, b'S', &mut sizes);
    let r = lists::list(line, b'R', &mut roots);
    // where the line has no kinds, all roots are outputs
    let mut counts = [(r % 4294967296) as u32, 0, 0, 0, 0, 0];
    let k = lists::list(line, b'K', &mut counts);
    let k = front(named_or(k, 5), &counts);
    shown(
        to,
        fields::byte(line, 0),
        lists::one(line, b'B') as usize,
        named_or(lists::one(line, b'A') as usize, 3),
        lists::one(line, b'I'),
        &counts[..k],
        nexts,
        resets,
        gates,
        &sizes[..s],
        &roots[..r],
    );
}

// The number, or another in place of 0.
fn named_or(n: usize, other: usize) -> usize {
    if n == 0 { other } else { n }
}

// Writes the circuit in the form that the line's first letter tells into so many bytes, with so many words for the answer.
fn shown(
    to: &mut Output,
    form: u8,
    room: usize,
    lent: usize,
    inputs: u32,
    counts: &[u32],
    nexts: &[u32],
    resets: &[u32],
    gates: &[u32],
    sizes: &[u32],
    roots: &[u32],
) {
    let mut out = [b'~'; 64];
    let mut words = [77u64; 3];
    let n = bytes_front(room, &out);
    let w = words_front(lent, &words);
    written(
        to,
        form,
        inputs,
        counts,
        nexts,
        resets,
        gates,
        sizes,
        roots,
        &mut out[..n],
        &mut words[..w],
    );
}

// Writes the circuit, and prints the answer, its words and the bytes.
fn written(
    to: &mut Output,
    form: u8,
    inputs: u32,
    counts: &[u32],
    nexts: &[u32],
    resets: &[u32],
    gates: &[u32],
    sizes: &[u32],
    roots: &[u32],
    out: &mut [u8],
    words: &mut [u64],
) {
    let number = number(
        form, inputs, counts, nexts, resets, gates, sizes, roots, out, words,
    );
    said(to, number, words);
    say::text(to, b"; bytes \"");
    escapes::show(to, out);
    say::text(to, b"\"");
}

// Writes the circuit as a text where the letter is a capital, and else as a binary file: 0, or a refusal's number.
fn number(
    form: u8,
    inputs: u32,
    counts: &[u32],
    nexts: &[u32],
    resets: &[u32],
    gates: &[u32],
    sizes: &[u32],
    roots: &[u32],
    out: &mut [u8],
    words: &mut [u64],
) -> u32 {
    if form < b'a' {
        return file_words::write_text(
            inputs, counts, nexts, resets, gates, sizes, roots, out, words,
        );
    }
    file_words::write(
        inputs, counts, nexts, resets, gates, sizes, roots, out, words,
    )
}

// `written` or `refused NUMBER`, and the answer's words.
fn said(to: &mut Output, number: u32, words: &[u64]) {
    if number == 0 {
        say::text(to, b"written");
    } else {
        say::counted(to, b"refused ", number as u64);
    }
    say::text(to, b"; answer");
    files::part(to, b" ", words, 0);
    files::part(to, b" ", words, 1);
    files::part(to, b" ", words, 2);
}

// Reads the file on the line, and writes what was read, into as many bytes as the file has; as a text, into 64.
pub fn again(to: &mut Output, line: &[u8]) {
    say::text(to, line);
    let mut file = [0u8; 64];
    let quote = find(line, 0, line.len(), b'"');
    let n = escapes::bytes(line, fields::sum(quote, 1), &mut file);
    read(to, fields::byte(line, 0), &file[..n]);
    say::line_end(to);
}

fn read(to: &mut Output, form: u8, file: &[u8]) {
    let mut nexts = [77u32; 4];
    let mut resets = [77u32; 4];
    let mut gates = [77u32; 8];
    let mut sizes = [77u32; 4];
    let mut roots = [77u32; 8];
    let mut words = [77u64; 11];
    let number = file_words::read(
        file,
        &mut nexts,
        &mut resets,
        &mut gates,
        &mut sizes,
        &mut roots,
        &mut words,
    );
    if number == 0 {
        files::part(to, b": takes ", &words, 0);
        say::text(to, b" bytes; ");
        let room = if form < b'a' { 64 } else { file.len() };
        rewritten(
            to, form, room, &words, &nexts, &resets, &gates, &sizes, &roots,
        );
        return;
    }
    say::counted(to, b": refused ", number as u64);
}

// Writes the circuit of a file's words and the fronts of its lists.
fn rewritten(
    to: &mut Output,
    form: u8,
    room: usize,
    words: &[u64],
    nexts: &[u32],
    resets: &[u32],
    gates: &[u32],
    sizes: &[u32],
    roots: &[u32],
) {
    let outputs = count(words, 5);
    let bad = count(words, 6);
    let constraints = count(words, 7);
    let fairness = count(words, 8);
    let justice = count(words, 9);
    let counts = [outputs, bad, constraints, fairness, justice];
    let all = outputs + bad + constraints + fairness + justice;
    let l = front(count(words, 3) as usize, nexts);
    let p = front(count(words, 3) as usize, resets);
    let g = front((count(words, 4) * 2) as usize, gates);
    let s = front(count(words, 10) as usize, sizes);
    let r = front(all as usize, roots);
    shown(
        to,
        form,
        room,
        3,
        count(words, 2),
        &counts,
        &nexts[..l],
        &resets[..p],
        &gates[..g],
        &sizes[..s],
        &roots[..r],
    );
}

// The word at a place, which is a count of a file's; 0 past the end.
fn count(words: &[u64], at: usize) -> u32
    ensures { result < 1048576 }
{
    if at < words.len() {
        (words[at] % 1048576) as u32
    } else {
        0
    }
}

// The number, or the list's length where that is smaller. The two functions after it are the same for bytes and for the answer's words.
pub fn front(n: usize, list: &[u32]) -> usize
    ensures { (result ≤ length list.now) × (result ≡ length (take result list.now)) }
{
    if n < list.len() { n } else { list.len() }
}

fn bytes_front(n: usize, list: &[u8]) -> usize
    ensures { (result ≤ length list.now) × (result ≡ length (take result list.now)) }
{
    if n < list.len() { n } else { list.len() }
}

fn words_front(n: usize, list: &[u64]) -> usize
    ensures { (result ≤ length list.now) × (result ≡ length (take result list.now)) }
{
    if n < list.len() { n } else { list.len() }
}
