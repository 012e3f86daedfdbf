// Where a record's links stand, and its size: the head, the data, CALC NEXT, then the links of each chain.
ghost use Rattle.std.specs.Prelude.{◌≡◌, if◌then◌else◌};
ghost use Rattle.ledger.specs.Table.{calculated};
ghost use Rattle.ledger.specs.Pages.{link_bytes, calc_at, link_at, record_size};
ghost use Rattle.table.specs.Links.{link_offset};

use super::words;

// The bytes of type, size and line that a record begins with.
pub const HEAD: u32 = 5;

// The bytes of a record's links in chain `j`: NEXT and PRIOR, NEXT alone, or none.
#[tactic(auto, unfolding(ledger::specs::Pages::link_bytes))]
pub fn link_bytes(table: &[u16], number: u16, j: u16) -> u8
    ensures { result ≡ link_bytes table.now number j }
{
    if !words::in_chain(table, j, number) {
        0
    } else if words::chain_word(table, j, words::LINKED_PRIOR) == 1 {
        6
    } else {
        3
    }
}

// The bytes of a record's CALC NEXT.
fn calc_bytes(table: &[u16], number: u16) -> u8
    ensures { result ≡ (if calculated table.now number then 3 else 0) }
{
    if words::is_calculated(table, number) {
        3
    } else {
        0
    }
}

// Where CALC NEXT stands in a record: after the data.
#[tactic(auto, unfolding(ledger::specs::Pages::calc_at))]
pub fn calc_at(table: &[u16], number: u16) -> u32
    ensures { result ≡ calc_at table.now number }
{
    HEAD + words::kind_word(table, number, words::DATA_LENGTH) as u32
}

// Where chain `j`'s NEXT stands in a record: after the links of the chains below `j`.
pub fn link_at(table: &[u16], number: u16, j: u16) -> u32
    ensures { result ≡ link_at table.now number j }
{
    let data_length = words::kind_word(table, number, words::DATA_LENGTH) as u32;
    let mut at = HEAD + data_length + calc_bytes(table, number) as u32;
    for k in 0..j {
        at += link_bytes(table, number, k) as u32;
    }
    at
}

// A record ends where one more chain's NEXT would stand.
#[tactic(auto, unfolding(ledger::specs::Pages::record_size))]
pub fn record_size(table: &[u16], number: u16) -> u32
    ensures { result ≡ record_size table.now number }
{
    link_at(table, number, words::word(table, words::CHAINS))
}

// One of a record's links: NEXT or PRIOR in a chain, or CALC NEXT.
#[derive(Clone, Copy)]
pub enum Link {
    Next(u16),
    Prior(u16),
    CalcNext,
}

// Where a link stands in a record of a type. A PRIOR stands behind the NEXT of its chain.
pub fn offset(table: &[u16], number: u16, link: Link) -> usize
    ensures { result ≡ link_offset table.now number link }
{
    match link {
        Link::Next(j) => link_at(table, number, j) as usize,
        Link::Prior(j) => link_at(table, number, j) as usize + 3,
        Link::CalcNext => calc_at(table, number) as usize,
    }
}
