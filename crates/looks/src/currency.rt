// The currency: its entries, arrival, and whether it is in force. Entries are arrays of sixteen by value, a form that the specification
// names, and 0 where there is none: the definition of `Currency` and the C interface have no Option.
ghost use Rattle.std.specs.Prelude.{◌≡◌, ℕ, Bool, get_or, set, eqb};
ghost use Rattle.ledger.specs.Currency.{type_current, chain_current};
ghost use Rattle.ledger.specs.Table.{types, chains, number, in_chain};
ghost use Rattle.look_model.specs.Currencies.{entry_after, entries_from, arrived_as, arrival, points_in, right_in, all_right, in_force_on};

use ledger::{Answer, Currency, Outcome};
use page::fields;
use table::words;

// Entry `k` of the types or of the chains, or 0 past the sixteen.
fn entry(entries: [u32; 16], k: u16) -> u32
    ensures { result ≡ get_or entries k 0 }
{
    entries.get(k as usize).copied().unwrap_or(0)
}

// The sixteen with another entry `k`, if it is one of them.
#[tactic(auto, using(crate::proofs::Laws::Currency::set_past))]
fn with_entry(entries: [u32; 16], k: u16, code: u32) -> [u32; 16]
    ensures { result ≡ set entries k code }
{
    let mut after = entries;
    let i = k as usize;
    if i < after.len() {
        after[i] = code;
    }
    after
}

pub fn chain_current(cur: Currency, j: u16) -> u32
    ensures { result ≡ chain_current cur j }
{
    entry(cur.chains, j)
}

pub fn type_current(table: &[u16], cur: Currency, kind: u16) -> u32
    ensures { result ≡ type_current table.now cur kind }
{
    entry(cur.types, words::row_of(table, kind))
}

// The entry of chain `j` after the arrival at a record.
#[tactic(auto, unfolding(look_model::specs::Currencies::entry_after))]
fn entry_after(table: &[u16], kind: u16, code: u32, j: u16, old: u32) -> u32
    ensures { result ≡ entry_after table.now kind code j old }
{
    if j < words::word(table, words::CHAINS) && words::in_chain(table, j, kind) {
        code
    } else {
        old
    }
}

// The chains' entries after it.
#[tactic(auto, using(crate::proofs::Laws::Currency::entries_turn, crate::proofs::Laws::Currency::entries_end))]
fn chains_after(table: &[u16], chains: [u32; 16], kind: u16, code: u32) -> [u32; 16]
    ensures { result ≡ entries_from table.now kind code chains 0 16 }
{
    let mut after = chains;
    for (j, entry) in after.iter_mut().enumerate() {
        *entry = entry_after(table, kind, code, j as u16, *entry);
    }
    after
}

// The currency after it.
#[tactic(auto, unfolding(look_model::specs::Currencies::arrived_as))]
pub fn arrive(table: &[u16], cur: Currency, kind: u16, code: u32) -> Currency
    ensures { result ≡ arrived_as table.now cur kind code }
{
    Currency {
        run: code,
        types: with_entry(cur.types, words::row_of(table, kind), code),
        chains: chains_after(table, cur.chains, kind, code),
    }
}

// A call done by arriving at a record.
pub fn arrive_at(table: &[u16], cur: Currency, kind: u16, code: u32, count: u16) -> Outcome
    ensures { result ≡ arrival table.now cur kind code count }
{
    Outcome::done(
        Answer::done(code, kind, count),
        arrive(table, cur, kind, code),
    )
}

// Whether an entry is 0 or the code of a record.
#[tactic(auto, unfolding(look_model::specs::Currencies::points_in))]
fn points(file: &[u8], code: u32) -> bool
    ensures { result ≡ points_in file.now code }
{
    code == 0 || fields::kind_at(file, code) != 0
}

// What entries stand for, the table's types by row or its chains: how many there are, and which types of record suit one.
// A trait and no closure: to call one takes a `requires`, and no function of the project has one.
trait Rows {
    ghost used: { Self → ℕ };

    ghost suits: { Self → ℕ → ℕ → Bool };

    fn used(&self) -> u16
        ensures { result ≡ used self.now };

    fn suits(&self, i: u16, kind: u16) -> bool
        ensures { result ≡ suits self.now i kind };
}

#[derive(Clone, Copy)]
struct Types<'a> {
    table: &'a [u16],
}

impl Rows for Types<'_> {
    ghost used = { λ r. types r.table.now };

    ghost suits = { λ r i n. eqb n (number r.table.now i) };

    fn used(&self) -> u16 {
        words::word(self.table, words::TYPES)
    }

    fn suits(&self, i: u16, kind: u16) -> bool {
        kind == words::type_word(self.table, i, words::NUMBER)
    }
}

#[derive(Clone, Copy)]
struct Chains<'a> {
    table: &'a [u16],
}

impl Rows for Chains<'_> {
    ghost used = { λ r. chains r.table.now };

    ghost suits = { λ r. in_chain r.table.now };

    fn used(&self) -> u16 {
        words::word(self.table, words::CHAINS)
    }

    fn suits(&self, i: u16, kind: u16) -> bool {
        words::in_chain(self.table, i, kind)
    }
}

// Whether entry `i` is 0 or the code of a record that suits it.
#[tactic(auto, unfolding(look_model::specs::Currencies::right_in))]
fn is_right<R: Rows>(rows: &R, file: &[u8], i: u16, code: u32) -> bool
    ensures { result ≡ right_in file.now (R.used rows.now) (R.suits rows.now) i code }
{
    if code == 0 {
        return true;
    }
    if rows.used() <= i {
        return false;
    }
    let kind = fields::kind_at(file, code);
    kind != 0 && rows.suits(i, kind)
}

fn all_right<R: Rows>(rows: &R, file: &[u8], entries: [u32; 16]) -> bool
    ensures { result ≡ all_right (right_in file.now (R.used rows.now) (R.suits rows.now)) entries }
{
    (0..16).all(|i| is_right(rows, file, i, entry(entries, i)))
}

// Whether the currency is in force on a sound file.
#[tactic(auto, unfolding(look_model::specs::Currencies::in_force_on, look_model::specs::Currencies::type_right_in, look_model::specs::Currencies::chain_right_in))]
pub fn in_force(table: &[u16], file: &[u8], cur: Currency) -> bool
    ensures { result ≡ in_force_on table.now file.now cur }
{
    points(file, cur.run)
        && all_right(&Types { table }, file, cur.types)
        && all_right(&Chains { table }, file, cur.chains)
}
