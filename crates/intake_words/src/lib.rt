// Intake as one call with numbers for its answer: a number and fourteen words, as C has them.
#![tactic(auto)]

ghost use Rattle.std.specs.Prelude.{◌≡◌, ◌≤◌, ltb, length};
ghost use Rattle.circuit.specs.Outcome.{onto};
ghost use Rattle.binary.specs.Promise.{numbers};
ghost use Rattle.file_words.specs.Read.{top_of, answer_words};
ghost use Rattle.intake_words.specs.Order.{order_number, refuser, made_count, byte_count, file_of, order_words, order_seen, ordering_seen};

use binary::FileRead;
use file_words::{top_of, words_of};
use intake::{OrderFault, Ordered};
use lines::Broken;

// Whether there are too few words for the answer.
fn is_short(answer: &[u64]) -> bool
    ensures { result ≡ ltb (length answer.now) 14 }
{
    answer.len() < 14
}

// 0 for a file that is ordered, else the refusal's number.
fn number(said: Result<Ordered, OrderFault>) -> u32
    ensures { result ≡ order_number said }
{
    match said {
        Ok(_) => 0,
        Err(OrderFault::Unread(file)) => u32::from(file.why),
        Err(OrderFault::Unordered { why, .. }) => refusals::number(why),
        Err(OrderFault::Unstored { why, .. }) => u32::from(why.why),
    }
}

// Who refused: 0 nobody, 1 the file, 2 renumbering, 3 writing.
fn who_refused(said: Result<Ordered, OrderFault>) -> u64
    ensures { result ≡ refuser said }
{
    match said {
        Ok(_) => 0,
        Err(OrderFault::Unread(_)) => 1,
        Err(OrderFault::Unordered { .. }) => 2,
        Err(OrderFault::Unstored { .. }) => 3,
    }
}

// The gates made; 0 where none was.
fn made_count(said: Result<Ordered, OrderFault>) -> u64
    ensures { result ≡ made_count said }
{
    match said {
        Ok(file) => file.made as u64,
        Err(OrderFault::Unstored { made, .. }) => made as u64,
        Err(_) => 0,
    }
}

// The bytes written, or those needed where the lent ones are too few; else 0.
fn byte_count(said: Result<Ordered, OrderFault>) -> u64
    ensures { result ≡ byte_count said }
{
    match said {
        Ok(file) => file.written as u64,
        Err(OrderFault::Unstored { why, .. }) => why.needed as u64,
        Err(_) => 0,
    }
}

// The file that was read, or its own refusal.
fn file_of(said: Result<Ordered, OrderFault>) -> Result<FileRead, Broken>
    ensures same { result ≡ file_of said }
    ensures five { length (numbers result).counts ≡ 5 }
{
    match said {
        Ok(file) => Ok(file.read),
        Err(OrderFault::Unread(why)) => Err(why),
        Err(OrderFault::Unordered { read, .. }) => Ok(read),
        Err(OrderFault::Unstored { read, .. }) => Ok(read),
    }
}

// The eleven words of the file that was read in the first lent ones.
fn put_file(file: Result<FileRead, Broken>, answer: &mut [u64])
    requires { 11 ≤ length answer.old }
    ensures { answer.new ≡ onto (answer_words (top_of file) file) answer.old }
{
    answer[..11].copy_from_slice(&words_of(file, top_of(file)));
}

// The answer's fourteen words in the first lent ones: the eleven of the file that was read; then the gates made, the bytes and who refused.
fn put_order(said: Result<Ordered, OrderFault>, answer: &mut [u64])
    requires { 14 ≤ length answer.old }
    ensures { answer.new ≡ onto (order_words said) answer.old }
{
    let file = file_of(said);
    put_file(file, answer);
    answer[11] = made_count(said);
    answer[12] = byte_count(said);
    answer[13] = who_refused(said);
}

// Reads a binary AIGER file, renumbers its circuit and writes the ordered file, as `intake::order` does: 0, or a refusal's number. The answer goes to the first
// fourteen words of `answer`: the bytes that the file took, or the place of its refusal; then, 0 where the file is refused, M = I + L + A, I, L, A, the five
// root counts in walk order and the number of justice sets of what was read; the gates made; the bytes written, or those needed where the lent ones are too
// few, else 0; and who refused: 0 nobody, 1 the file, 2 renumbering, 3 writing. Fewer than fourteen words is refusal 3, tested first, and writes nothing at
// all.
pub fn order(
    bytes: &[u8],
    flags: u32,
    nexts: &mut [u32],
    resets: &mut [u32],
    gates: &mut [u32],
    sizes: &mut [u32],
    roots: &mut [u32],
    input_codes: &mut [u32],
    state_codes: &mut [u32],
    triples: &mut [u32],
    map: &mut [u32],
    next_images: &mut [u32],
    reset_images: &mut [u32],
    root_images: &mut [u32],
    gates_out: &mut [u32],
    scratch: &mut [u32],
    out: &mut [u8],
    answer: &mut [u64],
) -> u32
    ensures { order_seen (record {
      number = result;
      lists = record {
        file = record {
          nexts = nexts.new;
          resets = resets.new;
          gates = gates.new;
          sizes = sizes.new;
          roots = roots.new;
        };
        codes = record {
          inputs = input_codes.new;
          states = state_codes.new;
          triples = triples.new;
        };
        images = record {
          map = map.new;
          next_images = next_images.new;
          reset_images = reset_images.new;
          root_images = root_images.new;
          gates_out = gates_out.new;
          scratch = scratch.new;
        };
        bytes = out.new;
      };
      words = answer.new;
    }) ≡ ordering_seen bytes.now flags (record {
      file = record {
        nexts = nexts.old;
        resets = resets.old;
        gates = gates.old;
        sizes = sizes.old;
        roots = roots.old;
      };
      codes = record {
        inputs = input_codes.old;
        states = state_codes.old;
        triples = triples.old;
      };
      images = record {
        map = map.old;
        next_images = next_images.old;
        reset_images = reset_images.old;
        root_images = root_images.old;
        gates_out = gates_out.old;
        scratch = scratch.old;
      };
      bytes = out.old;
    }) answer.old }
{
    if is_short(answer) {
        return 3;
    }
    let said = intake::order(
        bytes,
        flags,
        nexts,
        resets,
        gates,
        sizes,
        roots,
        input_codes,
        state_codes,
        triples,
        map,
        next_images,
        reset_images,
        root_images,
        gates_out,
        scratch,
        out,
    );
    put_order(said, answer);
    number(said)
}
