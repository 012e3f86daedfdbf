// Links written.
ghost use Rattle.std.specs.Prelude.{◌≡◌};
ghost use Rattle.model.specs.Reads.{place_in, kind_in};
ghost use Rattle.table.specs.Links.{link_offset};
ghost use Rattle.model.specs.Writes.{link_put, next_put, prior_put, calc_next_put, head_put, calc_put, joined_in, linked_in};

use page::{bytes, fields, lookup, writes};
use table::sizes::{self, Link};
use table::words;

// Makes `to` one of the links of a code's record.
fn put_link(table: &[u16], file: &mut [u8], link: Link, code: u32, to: u32)
    ensures { link_put file.old (place_in file.old code) (link_offset table.now (kind_in file.old code) link) to ≡ file.new }
{
    if let Some(at) = lookup::find(file, code) {
        let kind = bytes::two_at(file, at);
        writes::put_three_off(file, at, sizes::offset(table, kind, link), to);
    }
}

// Makes `to` the NEXT of a code's record in chain `j`.
#[tactic(auto, unfolding(model::specs::Writes::next_put))]
pub fn set_next(table: &[u16], file: &mut [u8], j: u16, code: u32, to: u32)
    ensures { next_put table.now file.old j code to ≡ file.new }
{
    put_link(table, file, Link::Next(j), code, to);
}

// Makes `to` its PRIOR in chain `j`, where the chain has PRIORs.
pub fn set_prior(table: &[u16], file: &mut [u8], j: u16, code: u32, to: u32)
    ensures { prior_put table.now file.old j code to ≡ file.new }
{
    if words::chain_word(table, j, words::LINKED_PRIOR) == 1 {
        put_link(table, file, Link::Prior(j), code, to);
    }
}

// Makes `to` its CALC NEXT.
#[tactic(auto, unfolding(model::specs::Writes::calc_next_put))]
pub fn set_calc_next(table: &[u16], file: &mut [u8], code: u32, to: u32)
    ensures { calc_next_put table.now file.old code to ≡ file.new }
{
    put_link(table, file, Link::CalcNext, code, to);
}

// Makes `to` the CALC NEXT of page `p`'s header.
#[tactic(auto, unfolding(model::specs::Writes::head_put))]
pub fn set_head_next(file: &mut [u8], p: u32, to: u32)
    ensures { head_put file.old p to ≡ file.new }
{
    if p != 0 {
        let start = lookup::PAGE_BYTES * (p as usize - 1);
        writes::put_three(file, start + fields::HEAD_LINK, to);
    }
}

// Makes `to` follow `code` in a CALC ring, be that a record or a header.
#[tactic(auto, unfolding(model::specs::Writes::calc_put))]
pub fn set_calc(table: &[u16], file: &mut [u8], code: u32, to: u32)
    ensures { calc_put table.now file.old code to ≡ file.new }
{
    if code % 64 == 0 {
        set_head_next(file, code / 64, to);
    } else {
        set_calc_next(table, file, code, to);
    }
}

// Makes `after` follow `before` in a ring of chain `j`.
#[tactic(auto, unfolding(model::specs::Writes::joined_in))]
pub fn join(table: &[u16], file: &mut [u8], j: u16, before: u32, after: u32)
    ensures { joined_in table.now file.old j before after ≡ file.new }
{
    set_next(table, file, j, before, after);
    set_prior(table, file, j, after, before);
}

// Puts record `x` between `before` and `after` in a ring of chain `j`.
#[tactic(auto, unfolding(model::specs::Writes::linked_in))]
pub fn link(table: &[u16], file: &mut [u8], j: u16, x: u32, before: u32, after: u32)
    ensures { linked_in table.now file.old j x before after ≡ file.new }
{
    join(table, file, j, x, after);
    join(table, file, j, before, x);
}
