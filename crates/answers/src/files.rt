// Questions about binary files: the word `file` and the file's bytes. The answer is `F`, the number and the eleven words of `file_words::read`, and of a
// file that is taken the next states, resets, gates, justice sizes and roots. And about text files: the word `text` and the file's bytes, with the answer
// `T`, the number and the eleven words of `file_words::read_text`, and the inputs and states before the other lists. The lists are long enough for every file
// that is asked about; they hold a word that is no literal, so that a word written past those named would show.
use crate::say::Output;
use crate::{fields, say};

pub fn answer(to: &mut Output, line: &[u8]) {
    let mut file = [0u8; 256];
    let n = fields::bytes(line, fields::after_word(line), &mut file);
    read(to, &file[..n]);
}

fn read(to: &mut Output, file: &[u8]) {
    let mut nexts = [4294967295u32; 16];
    let mut resets = [4294967295u32; 16];
    let mut gates = [4294967295u32; 128];
    let mut sizes = [4294967295u32; 8];
    let mut roots = [4294967295u32; 32];
    let mut words = [0u64; 11];
    let number = file_words::read(
        file,
        &mut nexts,
        &mut resets,
        &mut gates,
        &mut sizes,
        &mut roots,
        &mut words,
    );
    say::file(to, b"F ", number, &words);
    if number == 0 {
        say::front(to, &nexts);
        say::front(to, &resets);
        say::front(to, &gates);
        say::front(to, &sizes);
        say::front(to, &roots);
    }
    say::text(to, b"\n");
}

pub fn text(to: &mut Output, line: &[u8]) {
    let mut file = [0u8; 256];
    let n = fields::bytes(line, fields::after_word(line), &mut file);
    read_text(to, &file[..n]);
}

fn read_text(to: &mut Output, file: &[u8]) {
    let mut inputs = [4294967295u32; 32];
    let mut states = [4294967295u32; 16];
    let mut nexts = [4294967295u32; 16];
    let mut resets = [4294967295u32; 16];
    let mut gates = [4294967295u32; 128];
    let mut sizes = [4294967295u32; 8];
    let mut roots = [4294967295u32; 32];
    let mut words = [0u64; 11];
    let number = file_words::read_text(
        file,
        &mut inputs,
        &mut states,
        &mut nexts,
        &mut resets,
        &mut gates,
        &mut sizes,
        &mut roots,
        &mut words,
    );
    say::file(to, b"T ", number, &words);
    if number == 0 {
        say::front(to, &inputs);
        say::front(to, &states);
        say::front(to, &nexts);
        say::front(to, &resets);
        say::front(to, &gates);
        say::front(to, &sizes);
        say::front(to, &roots);
    }
    say::text(to, b"\n");
}
