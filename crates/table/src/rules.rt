// Whether a table is accepted: its counts, then each type's row, then each chain's. Each function says whether its rule holds.
// Class, order, duplicates and PRIORs are numbers and no enums: they are words of the lent table, and any number may stand there until
// it is accepted; `class`, `order` and `duplicates` (ledger) are numbers too.
ghost use Rattle.std.specs.Prelude.{◌≡◌, true, ◌↔◌};
ghost use Rattle.ledger.specs.Numbers.{all, run};
ghost use Rattle.ledger.specs.Table.{types, chains, Accepted};
ghost use Rattle.ledger.specs.Rules.{between, counted, lies_in, numbered, ranged, via_right, keyed, type_right, paired, sorted, chain_right, accepts};

use super::words;

#[tactic(auto, unfolding(ledger::specs::Rules::between))]
fn between(n: u16, low: u16, high: u16) -> bool
    ensures { result ≡ between n low high }
{
    (low..=high).contains(&n)
}

// The counts are within their bounds, and the table is exactly as long as they say.
#[tactic(auto, unfolding(ledger::specs::Rules::counted))]
fn counted(table: &[u16]) -> bool
    ensures { result ≡ counted table.now }
{
    let types = words::word(table, words::TYPES);
    let chains = words::word(table, words::CHAINS);
    between(words::word(table, words::PAGES), 1, 128)
        && between(types, 1, 16)
        && chains <= 16
        && table.len() == 3 + 8 * types as usize + 7 * chains as usize
}

// A key has a byte at least and ends within the data. The sum is one of 32 bits: in 16 it could wrap.
#[tactic(auto, unfolding(ledger::specs::Rules::lies_in))]
fn lies_in(offset: u16, length: u16, data_length: u16) -> bool
    ensures { result ≡ lies_in offset length data_length }
{
    1 <= length && offset as u32 + length as u32 <= data_length as u32
}

// A type's number is from 1 to 999 and above that of the row before.
#[tactic(auto, unfolding(ledger::specs::Rules::numbered))]
fn numbered(table: &[u16], i: u16) -> bool
    ensures { result ≡ numbered table.now i }
{
    let number = words::type_word(table, i, words::NUMBER);
    between(number, 1, 999) && (i == 0 || words::type_word(table, i - 1, words::NUMBER) < number)
}

// A type's pages are pages of the file, the lowest not above the highest.
#[tactic(auto, unfolding(ledger::specs::Rules::ranged))]
fn ranged(table: &[u16], i: u16) -> bool
    ensures { result ≡ ranged table.now i }
{
    let low = words::type_word(table, i, words::LOW_PAGE);
    let high = words::type_word(table, i, words::HIGH_PAGE);
    1 <= low && low <= high && high <= words::word(table, words::PAGES)
}

// A secondary type is the detail of its via chain; any other type has none.
#[tactic(auto, unfolding(ledger::specs::Rules::via_right))]
fn via_right(table: &[u16], i: u16) -> bool
    ensures { result ≡ via_right table.now i }
{
    let via = words::type_word(table, i, words::VIA);
    if words::type_word(table, i, words::CLASS) != 1 {
        return via == 65535;
    }
    let number = words::type_word(table, i, words::NUMBER);
    via < words::word(table, words::CHAINS) && words::is_detail(table, via, number)
}

// A calculated type has a key within its data; any other type has none.
#[tactic(auto, unfolding(ledger::specs::Rules::keyed))]
fn keyed(table: &[u16], i: u16) -> bool
    ensures { result ≡ keyed table.now i }
{
    let offset = words::type_word(table, i, words::KEY_OFFSET);
    let length = words::type_word(table, i, words::KEY_LENGTH);
    if words::type_word(table, i, words::CLASS) != 2 {
        return offset == 0 && length == 0;
    }
    lies_in(
        offset,
        length,
        words::type_word(table, i, words::DATA_LENGTH),
    )
}

// All rules of a type's row.
#[tactic(auto, unfolding(ledger::specs::Rules::type_right))]
fn type_right(table: &[u16], i: u16) -> bool
    ensures { result ≡ type_right table.now i }
{
    numbered(table, i)
        && words::type_word(table, i, words::DATA_LENGTH) <= 200
        && words::type_word(table, i, words::CLASS) <= 2
        && ranged(table, i)
        && via_right(table, i)
        && keyed(table, i)
}

fn types_right(table: &[u16]) -> bool
    ensures { result ≡ all (type_right table.now) (run 0 (types table.now)) }
{
    (0..words::word(table, words::TYPES)).all(|i| type_right(table, i))
}

// A chain goes from a defined type down to one of a higher number.
#[tactic(auto, unfolding(ledger::specs::Rules::paired))]
fn paired(table: &[u16], j: u16) -> bool
    ensures { result ≡ paired table.now j }
{
    let master = words::chain_word(table, j, words::MASTER_TYPE);
    let detail = words::chain_word(table, j, words::DETAIL_TYPE);
    words::is_defined(table, master) && words::is_defined(table, detail) && master < detail
}

// A sorted chain has a key within the detail's data; for any other chain the last three words are 0.
#[tactic(auto, unfolding(ledger::specs::Rules::sorted))]
fn sorted(table: &[u16], j: u16) -> bool
    ensures { result ≡ sorted table.now j }
{
    let duplicates = words::chain_word(table, j, words::DUPLICATES);
    let offset = words::chain_word(table, j, words::SORT_OFFSET);
    let length = words::chain_word(table, j, words::SORT_LENGTH);
    if words::chain_word(table, j, words::ORDER) < 2 {
        return duplicates == 0 && offset == 0 && length == 0;
    }
    let kind = words::chain_word(table, j, words::DETAIL_TYPE);
    let data = words::kind_word(table, kind, words::DATA_LENGTH);
    duplicates <= 2 && lies_in(offset, length, data)
}

// All rules of a chain's row.
#[tactic(auto, unfolding(ledger::specs::Rules::chain_right))]
fn chain_right(table: &[u16], j: u16) -> bool
    ensures { result ≡ chain_right table.now j }
{
    paired(table, j)
        && words::chain_word(table, j, words::ORDER) <= 3
        && words::chain_word(table, j, words::LINKED_PRIOR) <= 1
        && sorted(table, j)
}

fn chains_right(table: &[u16]) -> bool
    ensures { result ≡ all (chain_right table.now) (run 0 (chains table.now)) }
{
    (0..words::word(table, words::CHAINS)).all(|j| chain_right(table, j))
}

// Whether a table is accepted. The counts are judged before anything is read through them.
pub fn accepted(table: &[u16]) -> bool
    ensures computed { result ≡ accepts table.now }
    ensures exactly { (result ≡ true) ↔ Accepted table.now }
{
    counted(table) && types_right(table) && chains_right(table)
}
