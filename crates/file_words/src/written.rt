// Between C's numbers and the writer's types: the circuit's shape from words, and the answer as a number and two words.
ghost use Rattle.std.specs.Prelude.{◌≡◌, [], ◌∷◌, ◌≤◌, length};
ghost use Rattle.circuit.specs.Outcome.{onto};
ghost use Rattle.file_words.specs.Write.{shape_of, first_number, first_words, written_number, written_words};

use binary::Unwritten;
use ordered::given::{Shape, fault_literal};

// The circuit but for its lists.
pub fn shape_of(inputs: u32, counts: &[u32]) -> Shape
    requires { length counts.now ≡ 5 }
    ensures { result ≡ shape_of inputs counts.now }
{
    Shape {
        inputs,
        counts: [counts[0], counts[1], counts[2], counts[3], counts[4]],
    }
}

// The literal at fault and a number of bytes in the first two words.
fn put_words(words: &mut [u64], literal: u64, count: u64)
    requires { 2 ≤ length words.old }
    ensures { words.new ≡ onto (literal ∷ count ∷ []) words.old }
{
    words[0] = literal;
    words[1] = count;
}

// What is refused before there is a circuit to check: 3 where there are fewer than two answer words, which stay; then 2 where the counts are not five, and
// the answer words say nothing; else 0, and they stay.
#[tactic(auto, unfolding(crate::specs::Write::first_number, crate::specs::Write::first_words))]
pub fn refused_first(counts: &[u32], answer: &mut [u64]) -> u32
    ensures { (result ≡ first_number counts.now answer.old)
        × (answer.new ≡ first_words counts.now answer.old) }
{
    if answer.len() < 2 {
        return 3;
    }
    if counts.len() != 5 {
        put_words(answer, 0, 0);
        return 2;
    }
    0
}

// The answer's number, and its two words in the lent ones.
pub fn put_answer(said: Result<usize, Unwritten>, answer: &mut [u64]) -> u32
    requires { 2 ≤ length answer.old }
    ensures { (result ≡ written_number said) × (answer.new ≡ onto (written_words said) answer.old) }
{
    match said {
        Ok(n) => {
            put_words(answer, 0, n as u64);
            0
        }
        Err(refused) => {
            let literal = fault_literal(refused.why);
            put_words(answer, literal as u64, refused.needed as u64);
            u32::from(refused.why)
        }
    }
}
