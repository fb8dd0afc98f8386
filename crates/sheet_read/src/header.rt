// The ten numbers at the front of a sheet: V, I, L, G, five root counts, flags.
ghost use Rattle.std.specs.Prelude.{◌≡◌, length};
ghost use Rattle.sheet_read.specs.Sheet.{root_count, too_large, code_count};
ghost use Rattle.sheet_read.specs.Promise.{Small, Taken};

use crate::first_over;

// The largest V, I, L, G and R.
const SIZE_LIMIT: u64 = 1023;

// R, where no count is over its limit.
#[tactic(auto, using(crate::proofs::Headers::small_at, crate::proofs::Headers::root_sum))]
pub fn root_count(header: &[u64]) -> u64
    requires { Small header.now }
    ensures { result ≡ root_count header.now }
{
    header[4] + header[5] + header[6] + header[7] + header[8]
}

// Whether one of the first nine numbers, or R, is over its limit.
#[tactic(auto, unfolding(crate::specs::Sheet::too_large))]
pub fn too_large(header: &[u64]) -> bool
    requires { length header.now ≡ 10 }
    ensures { result ≡ too_large header.now }
{
    first_over(&header[..9], SIZE_LIMIT).is_some() || SIZE_LIMIT < root_count(header)
}

// How many codes follow.
#[tactic(auto, using(crate::proofs::Headers::bounds, crate::proofs::Headers::taken_small), unfolding(crate::specs::Sheet::code_count))]
pub fn code_count(header: &[u64]) -> usize
    requires { Taken header.now }
    ensures { result ≡ code_count header.now }
{
    (header[1] + 3 * header[3] + 2 * header[2] + root_count(header)) as usize
}
