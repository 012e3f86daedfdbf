// The currency once what is marked went. Code 0, for no record, stays a number in its entries: the definition of `Currency` and the C interface hold it.
ghost use Rattle.std.specs.Prelude.{◌≡◌};
ghost use Rattle.ledger.specs.Numbers.{by_index};
ghost use Rattle.delete_model.specs.Entries.{stay_in, backed_in, dropped_in, currency_after};

use crate::marks;
use ledger::Currency;
use page::fields;

// The last record before `code` in the ring of master `m` that stays, or `m`.
fn stay_before(table: &[u16], file: &[u8], marks: &[u8], j: u16, m: u32, code: u32) -> u32
    ensures { result ≡ stay_in table.now file.now marks.now j m code }
{
    let mut best = m;
    let mut at = fields::next_at(table, file, j, m);
    for turn in 0..rings::FUEL {
        if at == code {
            return best;
        }
        best = if marks::goes(marks, at) { best } else { at };
        at = fields::next_at(table, file, j, at);
    }
    best
}

// Where chain `j`'s entry goes back to: itself, the nearest that stays, or 0.
fn backed(table: &[u16], file: &[u8], marks: &[u8], j: u16, code: u32) -> u32
    ensures { result ≡ backed_in table.now file.now marks.now j code }
{
    if code == 0 || !marks::goes(marks, code) {
        return code;
    }
    let m = rings::master_of(table, file, j, code);
    if marks::goes(marks, m) {
        return 0;
    }
    stay_before(table, file, marks, j, m, code)
}

// The chains' entries, each gone back.
fn chains_backed(table: &[u16], file: &[u8], marks: &[u8], chains: [u32; 16]) -> [u32; 16]
    ensures { result ≡ by_index (λ j y. backed_in table.now file.now marks.now j y) 0 chains }
{
    std::array::from_fn(|j| backed(table, file, marks, j as u16, chains[j]))
}

// An entry whose record went becomes 0.
fn dropped(marks: &[u8], code: u32) -> u32
    ensures { result ≡ dropped_in marks.now code }
{
    if marks::goes(marks, code) { 0 } else { code }
}

// The types' entries, each kept or dropped.
fn types_dropped(marks: &[u8], types: [u32; 16]) -> [u32; 16]
    ensures { result ≡ by_index (λ i y. dropped_in marks.now y) 0 types }
{
    types.map(|code| dropped(marks, code))
}

// The currency once what is marked went.
pub fn currency_after(table: &[u16], file: &[u8], marks: &[u8], cur: Currency) -> Currency
    ensures { result ≡ currency_after table.now file.now marks.now cur }
{
    Currency {
        run: 0,
        types: types_dropped(marks, cur.types),
        chains: chains_backed(table, file, marks, cur.chains),
    }
}
