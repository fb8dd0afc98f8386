// What defines each variable: the table that `defs` fills in lent scratch, 0 for nothing, 1 for the constant, an input or a latch, k + 2 for gate k.
ghost use Rattle.std.specs.Prelude.{◌≡◌, ◌<◌, length};
ghost use Rattle.lit.specs.Code.{var};
ghost use Rattle.aig.specs.Table.{gate_at};

use lent::words::{place_of, wide};
use lit::Lit;

// The gate that defines a literal's variable, by its place in the gate list.
#[tactic(auto, unfolding(crate::specs::Table::gate_at))]
pub fn gate_of(table: &[u32], lit: Lit) -> Option<usize>
    requires { var lit.0 < length table.now }
    ensures { result ≡ gate_at table.now (var lit.0) }
{
    wide(table[place_of(lit)]).checked_sub(2)
}
