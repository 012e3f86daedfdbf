// The table's words, a type's row and what a row says of a type number.
ghost use Rattle.std.specs.Prelude.{◌≡◌};
ghost use Rattle.ledger.specs.Table.{word, type_word, chain_word, row, defined, calculated, is_master, is_detail, in_chain};

// Words that every table begins with.
pub const PAGES: usize = 0;

pub const TYPES: usize = 1;

pub const CHAINS: usize = 2;

// Words of a type's row. Numbers and no enum, as those of a chain's row: `type_word`, `chain_word` and `kind_word` are
// public and take any `w: u8`, so an enum would ask more of callers.
pub const NUMBER: u8 = 0;

pub const DATA_LENGTH: u8 = 1;

pub const CLASS: u8 = 2;

pub const LOW_PAGE: u8 = 3;

pub const HIGH_PAGE: u8 = 4;

pub const VIA: u8 = 5;

pub const KEY_OFFSET: u8 = 6;

pub const KEY_LENGTH: u8 = 7;

// Words of a chain's row.
pub const MASTER_TYPE: u8 = 0;

pub const DETAIL_TYPE: u8 = 1;

pub const ORDER: u8 = 2;

pub const LINKED_PRIOR: u8 = 3;

pub const DUPLICATES: u8 = 4;

pub const SORT_OFFSET: u8 = 5;

pub const SORT_LENGTH: u8 = 6;

// The word at `i`, or 0 past the end.
pub fn word(table: &[u16], i: usize) -> u16
    ensures { result ≡ word table.now i }
{
    table.get(i).copied().unwrap_or(0)
}

// Word `w` of the type in row `i`.
pub fn type_word(table: &[u16], i: u16, w: u8) -> u16
    ensures { result ≡ type_word table.now i w }
{
    word(table, 3 + 8 * (i as usize) + w as usize)
}

// Word `w` of chain `j`.
pub fn chain_word(table: &[u16], j: u16, w: u8) -> u16
    ensures { result ≡ chain_word table.now j w }
{
    let types = word(table, TYPES) as usize;
    word(table, 3 + 8 * types + 7 * (j as usize) + w as usize)
}

// The row of a type number, or how many rows there are where none has it: `row` says so, and `kind_word` reads the word there.
pub fn row_of(table: &[u16], number: u16) -> u16
    ensures { result ≡ row table.now number }
{
    let types = word(table, TYPES);
    (0..types)
        .find(|&i| type_word(table, i, NUMBER) == number)
        .unwrap_or(types)
}

// Word `w` of the row of a type number.
pub fn kind_word(table: &[u16], number: u16, w: u8) -> u16
    ensures { result ≡ type_word table.now (row table.now number) w }
{
    type_word(table, row_of(table, number), w)
}

#[tactic(auto, unfolding(ledger::specs::Table::defined))]
pub fn is_defined(table: &[u16], number: u16) -> bool
    ensures { result ≡ defined table.now number }
{
    row_of(table, number) < word(table, TYPES)
}

#[tactic(auto, unfolding(ledger::specs::Table::calculated))]
pub fn is_calculated(table: &[u16], number: u16) -> bool
    ensures { result ≡ calculated table.now number }
{
    kind_word(table, number, CLASS) == 2
}

// Whether a type is a chain's master, its detail, one of them. One comparison each: a function of both by the word compared is no plainer.
#[tactic(auto, unfolding(ledger::specs::Table::is_master))]
pub fn is_master(table: &[u16], j: u16, number: u16) -> bool
    ensures { result ≡ is_master table.now j number }
{
    chain_word(table, j, MASTER_TYPE) == number
}

#[tactic(auto, unfolding(ledger::specs::Table::is_detail))]
pub fn is_detail(table: &[u16], j: u16, number: u16) -> bool
    ensures { result ≡ is_detail table.now j number }
{
    chain_word(table, j, DETAIL_TYPE) == number
}

#[tactic(auto, unfolding(ledger::specs::Table::in_chain))]
pub fn in_chain(table: &[u16], j: u16, number: u16) -> bool
    ensures { result ≡ in_chain table.now j number }
{
    is_master(table, j, number) || is_detail(table, j, number)
}
