// A record's fields by its code: 0, or no bytes, where there is no record. Numbers and no Options: callers compare a type or a link with
// another, or hand it on, and an Option would be longer at each; `kind_in` and `next_in` say 0, the null of a link in the file.
ghost use Rattle.std.specs.Prelude.{◌≡◌, ◌+◌};
ghost use Rattle.ledger.specs.Numbers.{part};
ghost use Rattle.ledger.specs.Table.{calc_key, sort_key};
ghost use Rattle.table.specs.Links.{link_offset};
ghost use Rattle.model.specs.Reads.{place_in, link_from, kind_in, next_in, prior_in, calc_next_in, head_next_in, data_in};

use crate::{bytes, lookup};
use table::sizes::{self, Link};
use table::words;

// Where CALC NEXT stands in a page's header.
pub const HEAD_LINK: usize = 13;

// The type of a code's record.
pub fn kind_at(file: &[u8], code: u32) -> u16
    ensures { result ≡ kind_in file.now code }
{
    match lookup::find(file, code) {
        Some(at) => bytes::two_at(file, at),
        None => 0,
    }
}

// One of its links.
fn link_at(table: &[u16], file: &[u8], link: Link, code: u32) -> u32
    ensures { result ≡ link_from file.now (place_in file.now code) (link_offset table.now (kind_in file.now code) link) }
{
    let Some(at) = lookup::find(file, code) else {
        return 0;
    };
    let kind = bytes::two_at(file, at);
    bytes::three_off(file, at, sizes::offset(table, kind, link))
}

// Its NEXT in chain `j`.
#[tactic(auto, unfolding(model::specs::Reads::next_in))]
pub fn next_at(table: &[u16], file: &[u8], j: u16, code: u32) -> u32
    ensures { result ≡ next_in table.now file.now j code }
{
    link_at(table, file, Link::Next(j), code)
}

// What stands where its PRIOR would in chain `j`.
#[tactic(auto, unfolding(model::specs::Reads::prior_in))]
pub fn prior_at(table: &[u16], file: &[u8], j: u16, code: u32) -> u32
    ensures { result ≡ prior_in table.now file.now j code }
{
    link_at(table, file, Link::Prior(j), code)
}

// Its CALC NEXT.
#[tactic(auto, unfolding(model::specs::Reads::calc_next_in))]
pub fn calc_next_at(table: &[u16], file: &[u8], code: u32) -> u32
    ensures { result ≡ calc_next_in table.now file.now code }
{
    link_at(table, file, Link::CalcNext, code)
}

// The CALC NEXT of page `p`'s header.
#[tactic(auto, unfolding(model::specs::Reads::head_next_in))]
pub fn head_next(file: &[u8], p: u32) -> u32
    ensures { result ≡ head_next_in file.now p }
{
    if p == 0 {
        return 0;
    }
    bytes::three_at(file, lookup::PAGE_BYTES * (p as usize - 1) + HEAD_LINK)
}

// The `n` bytes from `o + k` on, or as many as there are.
fn part_off(f: &[u8], o: usize, k: usize, n: usize) -> &[u8]
    ensures { result.now ≡ part (o + k) n f.now }
{
    bytes::part_of(bytes::rest_of(f, o), k, n)
}

// The data of a code's record.
pub fn data_of<'a>(table: &[u16], file: &'a [u8], code: u32) -> &'a [u8]
    ensures { result.now ≡ data_in table.now file.now code }
{
    let Some(at) = lookup::find(file, code) else {
        return &[];
    };
    let kind = bytes::two_at(file, at);
    let n = words::kind_word(table, kind, words::DATA_LENGTH) as usize;
    part_off(file, at, sizes::HEAD as usize, n)
}

// The CALC key in the data of a record of a type.
#[tactic(auto, unfolding(ledger::specs::Table::calc_key))]
pub fn calc_key<'a>(table: &[u16], kind: u16, data: &'a [u8]) -> &'a [u8]
    ensures { result.now ≡ calc_key table.now kind «data».now }
{
    let at = words::kind_word(table, kind, words::KEY_OFFSET) as usize;
    let n = words::kind_word(table, kind, words::KEY_LENGTH) as usize;
    bytes::part_of(data, at, n)
}

// The key of chain `j` in the data of a record of a type.
#[tactic(auto, unfolding(ledger::specs::Table::sort_key))]
pub fn sort_key<'a>(table: &[u16], j: u16, kind: u16, data: &'a [u8]) -> &'a [u8]
    ensures { result.now ≡ sort_key table.now j kind «data».now }
{
    let at = words::chain_word(table, j, words::SORT_OFFSET) as usize;
    let n = words::chain_word(table, j, words::SORT_LENGTH) as usize;
    bytes::part_of(data, at, n)
}
