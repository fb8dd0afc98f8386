// The walk's stack, the last 2G of the scratch words: a word for each literal that was entered and is not left, its code doubled, and one more once
// its second input is under way.
ghost use Rattle.std.specs.Prelude.{◌≡◌, ◌+◌, ◌*◌, ◌^◌, ◌<◌, ◌≤◌, get_or, set};
ghost use Rattle.aig.specs.Layout.{Room, stack_at, stack_of};
ghost use Rattle.aig.specs.Stack.{frame_of, word_of, in_word, middle_is};

use crate::shape::Shape;
use lent::words::wide;
use lit::Lit;

// A literal on the stack, by the input that is under way. An enum of its own: each of the two is a way to go on.
#[derive(Clone, Copy)]
pub enum Frame {
    First(Lit),
    Second(Lit),
}

// The frame as a word. No `From`, since the doubled code has to fit the word.
fn word_of(frame: Frame) -> u32
    requires { (frame_of frame).lit < 2 ^ 31 }
    ensures { result ≡ word_of frame }
{
    match frame {
        Frame::First(lit) => 2 * lit.code(),
        Frame::Second(lit) => 2 * lit.code() + 1,
    }
}

// Puts an entry on the `depth` entries that are there.
pub fn push(scratch: &mut [u32], shape: Shape, depth: usize, frame: Frame)
    requires { Room shape scratch.old × (depth < 2 * shape.gates) × ((frame_of frame).lit < 2 ^ 31) }
    ensures { scratch.new ≡ set scratch.old (stack_at shape + depth) (word_of frame) }
{
    scratch[shape.stack_at() + depth] = word_of(frame);
}

// The entry with `below` entries below it.
#[tactic(auto, unfolding(crate::specs::Stack::in_word))]
pub fn entry(scratch: &[u32], shape: Shape, below: usize) -> Frame
    requires { Room shape scratch.now × (below < 2 * shape.gates) }
    ensures { result ≡ in_word (get_or (stack_of shape scratch.now) below 0) }
{
    let word = scratch[shape.stack_at() + below];
    let lit = Lit::from_code(word / 2);
    if word % 2 == 0 {
        return Frame::First(lit);
    }
    Frame::Second(lit)
}

// Whether the literal is the middle one of `depth` entries.
#[tactic(auto, unfolding(crate::specs::Stack::middle_is))]
pub fn middle(scratch: &[u32], shape: Shape, depth: usize, lit: Lit) -> bool
    requires { Room shape scratch.now × (depth ≤ 2 * shape.gates) }
    ensures { result ≡ middle_is (stack_of shape scratch.now) depth lit.0 }
{
    if depth == 0 {
        return false;
    }
    Lit::from_code(scratch[shape.stack_at() + depth / 2] / 2) == lit
}
