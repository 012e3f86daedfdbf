// The CALC rings: each header's walk comes home through unmet calculated records whose home its page is, and none is left unmet.
ghost use Rattle.std.specs.Prelude.{◌≡◌, true};
ghost use Rattle.ledger.specs.Numbers.{or_none};
ghost use Rattle.audit_model.specs.Calcs.{home_in, calc_met_in, head_walks, calc_unmet_in, calc_fault_in};

use crate::walks::{self, Ring, Rings};
use page::{bytes, fields};
use table::{keys, words};

// The home page of a code's record: 0, which is no page, where it is not calculated or not there. A number and no Option: under a table
// that breaks the rules 0 may be a home, and `calc_met_in` and `calc_unmet_in` compare with it.
#[tactic(auto, unfolding(audit_model::specs::Calcs::home_in))]
fn home_at(table: &[u16], file: &[u8], code: u32) -> u32
    ensures { result ≡ home_in table.now file.now code }
{
    let kind = fields::kind_at(file, code);
    if kind == 0 || !words::is_calculated(table, kind) {
        return 0;
    }
    keys::home_page(table, kind, page::keys::calc_key_at(table, file, code))
}

// The CALC ring of a page.
#[derive(Clone, Copy)]
struct Homed<'a> {
    table: &'a [u16],
    file: &'a [u8],
    page: u32,
}

impl Ring for Homed<'_> {
    ghost met = { λ r g last at. calc_met_in r.table.now r.file.now r.page g at };

    ghost back = { λ r last. true };

    // A record of that home may be met once.
    #[tactic(auto, using(ledger::proofs::Lists::Nones::none_is), unfolding(audit_model::specs::Calcs::calc_met_in))]
    fn next(&self, marks: &[u8], _last: u32, at: u32) -> Option<u32> {
        if bytes::byte_at(marks, at as usize) != 0
            || home_at(self.table, self.file, at) != self.page
        {
            return None;
        }
        walks::link(fields::calc_next_at(self.table, self.file, at))
    }

    // There are no PRIORs.
    fn closes(&self, _last: u32) -> bool {
        true
    }
}

// The CALC rings of all pages.
#[derive(Clone, Copy)]
struct Homes<'a> {
    table: &'a [u16],
    file: &'a [u8],
}

impl Rings for Homes<'_> {
    ghost walks = { λ r p g. head_walks r.table.now r.file.now p g };

    ghost unmet = { λ r g code. calc_unmet_in r.table.now r.file.now g code };

    // A ring starts at each page's header.
    #[tactic(auto, unfolding(audit_model::specs::Calcs::head_walks, audit_model::specs::Calcs::calc_walk_on))]
    fn walk(&self, marks: &mut [u8], start: u32) -> bool {
        let ring = Homed {
            table: self.table,
            file: self.file,
            page: start,
        };
        let first = fields::head_next(self.file, start);
        walks::walk_home(&ring, marks, 64 * (start % 65536), 0, first)
    }

    #[tactic(auto, unfolding(audit_model::specs::Calcs::calc_unmet_in))]
    fn is_unmet(&self, marks: &[u8], code: u32) -> bool {
        bytes::byte_at(marks, code as usize) == 0 && home_at(self.table, self.file, code) != 0
    }
}

// The place of the first fault of the CALC rings, a header as 64 x page.
pub fn calc_fault(table: &[u16], file: &[u8]) -> Option<u32>
    ensures { result ≡ or_none (calc_fault_in table.now file.now) }
{
    let pages = words::word(table, words::PAGES);
    let rings = Homes { table, file };
    let mut marks = [0u8; walks::MARKS];
    match walks::astray(&rings, &mut marks, 1, pages as u32 + 1) {
        Some(page) => Some(64 * page),
        None => walks::unmet(&rings, &marks, pages),
    }
}
