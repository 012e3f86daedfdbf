// The rings of a chain: each master's walk along NEXT comes home through unmet details, PRIOR undoes NEXT, and no detail is left unmet.
ghost use Rattle.std.specs.Prelude.{◌≡◌, ◌+◌};
ghost use Rattle.ledger.specs.Numbers.{or_none};
ghost use Rattle.audit_model.specs.Chains.{ends_of, prior_is, met_in, code_walks, unmet_in, chain_fault_in, ring_fault_in};

use crate::walks::{self, Ring, Rings};
use model::Ends;
use page::{bytes, fields, lookup};
use table::{sizes, words};

#[tactic(auto, unfolding(audit_model::specs::Chains::ends_of))]
fn ends_of(table: &[u16], j: u16) -> Ends
    ensures { result ≡ ends_of table.now j }
{
    let master = words::chain_word(table, j, words::MASTER_TYPE);
    let detail = words::chain_word(table, j, words::DETAIL_TYPE);
    Ends {
        master,
        detail,
        above: sizes::link_at(table, master, j),
        below: sizes::link_at(table, detail, j),
        linked: words::chain_word(table, j, words::LINKED_PRIOR) == 1,
    }
}

// Whether the PRIOR that stands behind a NEXT, `k` bytes into the record that starts at `s`, is `last`, where there are PRIORs.
#[tactic(auto, unfolding(audit_model::specs::Chains::prior_is))]
fn prior_is(file: &[u8], linked: bool, s: usize, k: u32, last: u32) -> bool
    ensures { result ≡ prior_is file.now linked s k last }
{
    !linked || bytes::three_off(file, s, k as usize + 3) == last
}

// The ring of a master whose record starts at `start`.
#[derive(Clone, Copy)]
struct Details<'a> {
    file: &'a [u8],
    ends: Ends,
    start: usize,
}

impl Ring for Details<'_> {
    ghost met = { λ r g last at. met_in r.file.now r.ends g last at };

    ghost back = { λ r last. prior_is r.file.now r.ends.linked r.start r.ends.above last };

    // A detail may be met once, if its PRIOR is `last`.
    #[tactic(auto, using(audit_model::proofs::Nones::found_or_none), unfolding(audit_model::specs::Chains::met_in))]
    fn next(&self, marks: &[u8], last: u32, at: u32) -> Option<u32> {
        let s = lookup::find(self.file, at)?;
        if bytes::two_at(self.file, s) != self.ends.detail
            || bytes::byte_at(marks, at as usize) != 0
            || !prior_is(self.file, self.ends.linked, s, self.ends.below, last)
        {
            return None;
        }
        walks::link(bytes::three_off(self.file, s, self.ends.below as usize))
    }

    fn closes(&self, last: u32) -> bool {
        prior_is(
            self.file,
            self.ends.linked,
            self.start,
            self.ends.above,
            last,
        )
    }
}

// The rings of a chain.
#[derive(Clone, Copy)]
struct Chain<'a> {
    file: &'a [u8],
    ends: Ends,
}

impl Rings for Chain<'_> {
    ghost walks = { λ r code g. code_walks r.file.now r.ends code g };

    ghost unmet = { λ r g code. unmet_in r.file.now r.ends.detail g code };

    // A ring starts at each master.
    #[tactic(auto, using(ledger::proofs::Lists::Nones::unwrap_or_none), unfolding(audit_model::specs::Chains::code_walks, audit_model::specs::Chains::walk_home, audit_model::specs::Chains::back_home))]
    fn walk(&self, marks: &mut [u8], start: u32) -> bool {
        if fields::kind_at(self.file, start) != self.ends.master {
            return true;
        }
        // Where the table has no such type, the ring is read from the file's start.
        let at = lookup::find(self.file, start).unwrap_or(0);
        let ring = Details {
            file: self.file,
            ends: self.ends,
            start: at,
        };
        let first = bytes::three_off(self.file, at, self.ends.above as usize);
        walks::walk_home(&ring, marks, start, start, first)
    }

    #[tactic(auto, unfolding(audit_model::specs::Chains::unmet_in))]
    fn is_unmet(&self, marks: &[u8], code: u32) -> bool {
        bytes::byte_at(marks, code as usize) == 0
            && fields::kind_at(self.file, code) == self.ends.detail
    }
}

// The place of chain `j`'s first ring fault.
fn chain_fault(table: &[u16], file: &[u8], j: u16) -> Option<u32>
    ensures { result ≡ or_none (chain_fault_in table.now file.now j) }
{
    let pages = words::word(table, words::PAGES);
    let rings = Chain {
        file,
        ends: ends_of(table, j),
    };
    let mut marks = [0u8; walks::MARKS];
    match walks::astray(&rings, &mut marks, 64, 64 + 64 * pages as u32) {
        Some(code) => Some(code),
        None => walks::unmet(&rings, &marks, pages),
    }
}

// The place of the first ring fault of the chains in their order.
pub fn first_fault(table: &[u16], file: &[u8]) -> Option<u32>
    ensures { result ≡ or_none (ring_fault_in table.now file.now) }
{
    let chains = words::word(table, words::CHAINS);
    for j in 0..chains {
        if let Some(place) = chain_fault(table, file, j) {
            return Some(place);
        }
    }
    None
}
