// Between C's numbers and the library's types: the circuit's record from words, and the answer as a number and three words.
ghost use Rattle.std.specs.Prelude.{◌≡◌, [], ◌∷◌, ◌≤◌, length};
ghost use Rattle.circuit.specs.Outcome.{onto};
ghost use Rattle.capi.specs.Renumber.{record_of, misgiven, first_number, first_words, answer_number, answer_words};

use circuit::{CircuitRecord, Refusal, Summary};
use lit::Var;

// Whether there are not five counts, or the flags are over 7.
#[tactic(auto, unfolding(crate::specs::Renumber::misgiven))]
fn is_misgiven(counts: &[u32], flags: u32) -> bool
    ensures { result ≡ misgiven counts.now flags }
{
    counts.len() != 5 || 7 < flags
}

// The circuit but for its lists. The flags are trim 1, hash 2, fold 4.
#[tactic(auto, using(file_words::proofs::Words::five), unfolding(lit::specs::Code::is_odd))]
pub fn record_of(top: u32, counts: &[u32], flags: u32) -> CircuitRecord
    requires { length counts.now ≡ 5 }
    ensures { result ≡ record_of top counts.now flags }
{
    CircuitRecord {
        top: Var::from_index(top),
        counts: [counts[0], counts[1], counts[2], counts[3], counts[4]],
        trim: flags % 2 == 1,
        hash: flags / 2 % 2 == 1,
        fold: flags / 4 % 2 == 1,
    }
}

// The literal at fault, the gates made and the new largest variable in the first three words.
fn put_words(words: &mut [u32], literal: u32, made: u32, top: u32)
    requires { 3 ≤ length words.old }
    ensures { words.new ≡ onto (literal ∷ made ∷ top ∷ []) words.old }
{
    words[..3].copy_from_slice(&[literal, made, top]);
}

// What is refused before there is a record to check: 3 where there are fewer than three answer words, which stay; then 2 where the counts or the
// flags can't be taken, and the answer words say nothing; else 0, and they stay.
#[tactic(auto, unfolding(crate::specs::Renumber::first_number, crate::specs::Renumber::first_words))]
pub fn refused_first(counts: &[u32], flags: u32, answer: &mut [u32]) -> u32
    ensures { (result ≡ first_number counts.now flags answer.old)
        × (answer.new ≡ first_words counts.now flags answer.old) }
{
    if answer.len() < 3 {
        return 3;
    }
    if is_misgiven(counts, flags) {
        put_words(answer, 0, 0, 0);
        return 2;
    }
    0
}

// The answer's number, and its three words in the lent ones.
pub fn put_answer(said: Result<Summary, Refusal>, answer: &mut [u32]) -> u32
    requires { 3 ≤ length answer.old }
    ensures { (result ≡ answer_number said) × (answer.new ≡ onto (answer_words said) answer.old) }
{
    match said {
        Ok(summary) => {
            let top = summary.top;
            put_words(answer, 0, summary.made, top.index());
            0
        }
        Err(why) => {
            let fault = refusals::literal(why);
            put_words(answer, fault.code(), 0, 0);
            refusals::number(why)
        }
    }
}
