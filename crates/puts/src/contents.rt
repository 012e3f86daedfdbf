// What a record is to hold, and where its keys place it.
// `but` is a record's code, or 0 for none: `has_key_in` and `between_in` pass over one code, and code 0 is no record's.
ghost use Rattle.std.specs.Prelude.{◌≡◌};
ghost use Rattle.ledger.specs.Table.{calc_key, sort_key};
ghost use Rattle.ledger.specs.Pages.{home};
ghost use Rattle.ring_model.specs.Rings.{key_twin_in, between_in};

use model::Between;
use page::fields;
use table::keys;

// A record's type, and its data as it is to be.
#[derive(Clone, Copy)]
pub struct Contents<'a> {
    pub kind: u16,
    pub data: &'a [u8],
}

impl Contents<'_> {
    // The page that its CALC key says.
    pub fn home(self, table: &[u16]) -> u32
        ensures { result ≡ home table.now self.entry.kind (calc_key table.now self.entry.kind self.entry.«data».now) }
    {
        let key = fields::calc_key(table, self.kind, self.data);
        keys::home_page(table, self.kind, key)
    }

    // Whether it would be a forbidden duplicate of another than `but` in the ring of `m` in chain `j`.
    pub fn twin_under(self, table: &[u16], file: &[u8], j: u16, m: u32, but: u32) -> bool
        ensures { result ≡ key_twin_in table.now file.now j m (sort_key table.now j self.entry.kind self.entry.«data».now) but }
    {
        let key = fields::sort_key(table, j, self.kind, self.data);
        rings::twin_in(table, file, j, m, key, but)
    }

    // Its place in that ring, `but` aside.
    pub fn place_under(self, table: &[u16], file: &[u8], j: u16, m: u32, but: u32) -> Between
        ensures { result ≡ between_in table.now file.now j m (sort_key table.now j self.entry.kind self.entry.«data».now) but }
    {
        let key = fields::sort_key(table, j, self.kind, self.data);
        rings::gap_for(table, file, j, m, key, but)
    }
}
