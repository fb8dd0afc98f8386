// The map of literals: one word a variable, the image of its literal that is not negated. Only these functions know it.
ghost use Rattle.std.specs.Prelude.{◌≡◌};
ghost use Rattle.circuit.specs.Map.{image_in, store, code_of};

use crate::words::place_of;
use lit::Lit;

// The word for no image.
pub const NO_IMAGE: u32 = 4294967295;

// The image of a literal; past the map there is none.
#[tactic(auto, unfolding(circuit::specs::Map::image_in, circuit::specs::Map::entry_image))]
pub fn image(map: &[u32], lit: Lit) -> Option<Lit>
    ensures { result ≡ image_in map.now lit.0 }
{
    let entry = *map.get(place_of(lit))?;
    if entry == NO_IMAGE {
        return None;
    }
    Some(Lit::from_code(entry).flipped(lit))
}

// Gives a literal the image `code`; past the map nothing is written.
#[tactic(auto, unfolding(circuit::specs::Map::store))]
pub fn insert(map: &mut [u32], lit: Lit, code: Lit)
    ensures { map.new ≡ store map.old lit.0 code.0 }
{
    let i = place_of(lit);
    if i < map.len() {
        map[i] = code.flipped(lit).code();
    }
}

// The image's code; 0 where there is none.
#[tactic(auto, unfolding(circuit::specs::Map::code_of))]
pub fn code_of(image: Option<Lit>) -> u32
    ensures { result ≡ code_of image }
{
    image.map_or(0, |lit| lit.code())
}
