// Between the readers' types and C's numbers: an answer as a number and eleven words.
ghost use Rattle.std.specs.Prelude.{◌≡◌, ◌≤◌, ltb, length};
ghost use Rattle.circuit.specs.Outcome.{onto};
ghost use Rattle.lent.specs.Counted.{Counted};
ghost use Rattle.binary.specs.Promise.{numbers};
ghost use Rattle.file_words.specs.Read.{file_number, first_word, top_of, answer_words};
ghost use Rattle.file_words.specs.Text.{file_read, text_top};

use ascii::TextRead;
use binary::FileRead;
use lines::Broken;

// Whether there are too few words for the answer.
pub fn is_short(answer: &[u64]) -> bool
    ensures { result ≡ ltb (length answer.now) 11 }
{
    answer.len() < 11
}

// A count as a word; three of them can't overflow a sum.
fn word(count: u32) -> u64
    ensures { Counted count result }
{
    count as u64
}

// 0 for a file that is taken, else the refusal's number.
pub fn number(said: Result<FileRead, Broken>) -> u32
    ensures { result ≡ file_number said }
{
    match said {
        Ok(_file) => 0,
        Err(refused) => u32::from(refused.why),
    }
}

// The bytes that a file took, or the place where it is refused.
fn first_word(said: Result<FileRead, Broken>) -> u64
    ensures { result ≡ first_word said }
{
    match said {
        Ok(file) => file.used as u64,
        Err(refused) => refused.place as u64,
    }
}

// The numbers of a file that is taken; all 0 for a refusal.
fn numbers(said: Result<FileRead, Broken>) -> FileRead
    ensures { result ≡ numbers said }
{
    said.unwrap_or(FileRead {
        used: 0,
        inputs: 0,
        latches: 0,
        gates: 0,
        counts: [0; 5],
        sets: 0,
    })
}

// M of a binary file: I + L + A, and 0 for a refusal.
pub fn top_of(said: Result<FileRead, Broken>) -> u64
    ensures { result ≡ top_of said }
{
    let file = numbers(said);
    word(file.inputs) + word(file.latches) + word(file.gates)
}

// M of a text: its header's, and 0 for a refusal.
pub fn text_top(said: Result<TextRead, Broken>) -> u64
    ensures { result ≡ text_top said }
{
    match said {
        Ok(text) => text.top as u64,
        Err(_refused) => 0,
    }
}

// What is answered of a text but for its M, as of a binary file.
pub fn file_read(said: Result<TextRead, Broken>) -> Result<FileRead, Broken>
    ensures { result ≡ file_read said }
{
    let text = said?;
    let counts = text.counts;
    Ok(FileRead {
        used: text.used,
        inputs: text.inputs,
        latches: text.latches,
        gates: text.gates,
        counts,
        sets: text.sets,
    })
}

// The eleven words, M among them.
pub fn words_of(said: Result<FileRead, Broken>, top: u64) -> [u64; 11]
    ensures { result ≡ answer_words top said }
{
    let file = numbers(said);
    let counts = file.counts;
    [
        first_word(said),
        top,
        file.inputs as u64,
        file.latches as u64,
        file.gates as u64,
        counts[0] as u64,
        counts[1] as u64,
        counts[2] as u64,
        counts[3] as u64,
        counts[4] as u64,
        file.sets as u64,
    ]
}

// The same in the first lent ones.
pub fn put_words(said: Result<FileRead, Broken>, top: u64, answer: &mut [u64])
    requires { 11 ≤ length answer.old }
    ensures { answer.new ≡ onto (answer_words top said) answer.old }
{
    answer[..11].copy_from_slice(&words_of(said, top));
}
