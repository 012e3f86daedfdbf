// Where a key stops on its way along a ring of a chain.
ghost use Rattle.std.specs.Prelude.{◌≡◌};
ghost use Rattle.ledger.specs.Table.{duplicates};
ghost use Rattle.ring_model.specs.Rings.{goes_before, key_stops};

use table::keys;
use table::order::{Duplicates, Order};

// Whether key `a` goes before key `b` in rising order; the duplicates rule decides on equal keys.
#[tactic(auto, unfolding(ring_model::specs::Rings::goes_before))]
fn goes_before(table: &[u16], j: u16, a: &[u8], b: &[u8]) -> bool
    ensures { result ≡ goes_before (duplicates table.now j) a.now b.now }
{
    match Duplicates::of(table, j) {
        Duplicates::First => !keys::less_key(b, a),
        Duplicates::Last | Duplicates::Refused => keys::less_key(a, b),
    }
}

// Whether a key that goes along a ring of chain `j` stops before another: in falling order the other one would go before it.
#[tactic(auto, unfolding(ring_model::specs::Rings::key_stops))]
pub(crate) fn key_stops(table: &[u16], j: u16, key: &[u8], other: &[u8]) -> bool
    ensures { result ≡ key_stops table.now j key.now other.now }
{
    match Order::of(table, j) {
        Order::First => true,
        Order::Last => false,
        Order::Rising => goes_before(table, j, key, other),
        Order::Falling => goes_before(table, j, other, key),
    }
}
