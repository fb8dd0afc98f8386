// Reading a sheet, document 01's ten numbers and the codes of the lists that they announce, into lent numbers.
#![tactic(auto)]

mod header;

ghost use Rattle.std.specs.Prelude.{Ok, ◌≡◌, length};
ghost use Rattle.circuit.specs.Circuit.{first_over};
ghost use Rattle.sheet_read.specs.Sheet.{numbers_at, announced, header_read, read_of, faulty_number};
ghost use Rattle.sheet_read.specs.Promise.{Fills, Reads, ReadsCodes};

use token::Refused;

// Why a sheet is not taken: the refusal's number and what is printed beside it.
#[derive(Clone, Copy)]
pub struct Faulty {
    pub number: u32,
    pub beside: u64,
}

// A number that is refused: its reason's number, and its place beside it.
impl From<Refused> for Faulty {
    ghost from_gives = { λ e f. f ≡ faulty_number e };

    fn from(e: Refused) -> Faulty {
        Faulty {
            number: u32::from(e.why),
            beside: e.place as u64,
        }
    }
}

// The longest sheet that is read.
const SHEET_LIMIT: usize = 60000;

// Numbers in groups of seven bits from a place on, as many as the list has cells: the place after the last. Where one is refused, the cells before it are
// filled.
pub fn numbers(s: &[u8], at: usize, list: &mut [u64]) -> Result<usize, Refused>
    ensures { Fills (numbers_at s.now at (length list.old)) result list.old list.new }
{
    let mut place = at;
    for cell in list.iter_mut() {
        let number = token::binary_uint(s, place)?;
        *cell = number.value;
        place += number.used;
    }
    Ok(place)
}

// The first number of a list over a bound.
pub fn first_over(numbers: &[u64], bound: u64) -> Option<u64>
    ensures { result ≡ first_over bound numbers.now }
{
    numbers.iter().copied().find(|n| bound < *n)
}

// How many codes the ten numbers announce; none where they are not ten, or one is over its limit.
#[tactic(auto, unfolding(crate::specs::Sheet::announced))]
pub fn announced(header: &[u64]) -> usize
    ensures { result ≡ announced header.now }
{
    if header.len() != 10 || header::too_large(header) {
        return 0;
    }
    header::code_count(header)
}

// The sheet from the end of its header on.
fn read_lists(sheet: &[u8], at: usize, header: &[u64], codes: &mut [u64]) -> Result<(), Faulty>
    requires { (length header.now ≡ 10) × (length codes.old ≡ 7161) }
    ensures { ReadsCodes (header_read sheet.now header.now (Ok at)) result codes.old codes.new }
{
    if header::too_large(header) {
        return Err(Faulty {
            number: 1,
            beside: 0,
        });
    }
    if 7 < header[9] {
        return Err(Faulty {
            number: 2,
            beside: 0,
        });
    }
    let count = header::code_count(header);
    let place = numbers(sheet, at, &mut codes[..count])?;
    if place < sheet.len() {
        return Err(Faulty {
            number: 2,
            beside: 0,
        });
    }
    Ok(())
}

// Reads a sheet: the ten numbers of its header, and the codes of its lists in their order.
pub fn read(sheet: &[u8], header: &mut [u64; 10], codes: &mut [u64; 7161]) -> Result<(), Faulty>
    ensures { Reads (read_of sheet.now) result header.old header.new codes.old codes.new }
{
    if SHEET_LIMIT < sheet.len() {
        return Err(Faulty {
            number: 1,
            beside: 0,
        });
    }
    let place = numbers(sheet, 0, header)?;
    read_lists(sheet, place, header, codes)
}
