// Words as numbers, and storing and filling lent words.
ghost use Rattle.std.specs.Prelude.{◌≡◌, length, replicate, set};
ghost use Rattle.lit.specs.Code.{var};
ghost use Rattle.lent.specs.Counted.{Counted};
ghost use Rattle.circuit.specs.Circuit.{is_reset};
ghost use Rattle.circuit.specs.Outcome.{onto};

use lit::Lit;

// The word as a number that counts or indexes.
pub fn wide(x: u32) -> usize
    ensures { result ≡ x }
{
    x as usize
}

// The same, known to be a word's: a few of them can't overflow a sum. Beside `wide` and not in its place: one function with both facts would be no
// plainer, since each answer that cites `wide` would have to name its part.
pub fn counted(word: u32) -> usize
    ensures { Counted word result }
{
    word as usize
}

// The place of a literal's variable in a table that has a word for each variable.
pub fn place_of(lit: Lit) -> usize
    ensures { result ≡ var lit.0 }
{
    wide(lit.var().index())
}

// Whether a word may be the reset of a latch with this literal.
pub fn is_reset(own: u32, reset: u32) -> bool
    ensures { result ≡ is_reset own reset }
{
    reset <= 1 || reset == own
}

// One word in a cell, if the cell is there.
pub fn store(list: &mut [u32], at: usize, word: u32)
    ensures { list.new ≡ set list.old at word }
{
    if at < list.len() {
        list[at] = word;
    }
}

// Puts the value into the first `count` words, as far as there are so many.
pub fn fill_front(words: &mut [u32], count: usize, value: u32)
    ensures { words.new ≡ onto (replicate count value) words.old }
{
    let front = count.min(words.len());
    words[..front].fill(value);
}

// Puts the value into every word.
pub fn fill(words: &mut [u32], value: u32)
    ensures { words.new ≡ replicate (length words.old) value }
{
    words.fill(value);
}
