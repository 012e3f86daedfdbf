// A deletion carried out: rings close over what is marked, then the marked records leave their pages.
ghost use Rattle.std.specs.Prelude.{◌≡◌, ℕ, ◌*◌, List};
ghost use Rattle.model.specs.Reads.{next_in, calc_next_in};
ghost use Rattle.model.specs.Writes.{calc_put, joined_in};
ghost use Rattle.ring_model.specs.Rings.{ring_fuel};
ghost use Rattle.delete_model.specs.Closing.{close_from, ring_closed, calc_closed, code_closed, chain_closed, chains_closed, calcs_closed, marks_taken, act_on};

use change::links;
use doomed::marks;
use page::fields;
use records::moves;
use table::words;

// A kind of ring: what follows a record, and how one is made to follow another.
trait Ring {
    ghost follows: { Self → List ℕ → ℕ → ℕ };

    ghost joined: { Self → List ℕ → ℕ → ℕ → List ℕ };

    fn next(&self, file: &[u8], at: u32) -> u32
        ensures { result ≡ follows self.now file.now at };

    fn join(&self, file: &mut [u8], before: u32, after: u32)
        ensures { joined self.now file.old before after ≡ file.new };
}

// The rings of chain `j`.
#[derive(Clone, Copy)]
struct Chain<'a> {
    table: &'a [u16],
    j: u16,
}

impl Ring for Chain<'_> {
    ghost follows = { λ r f at. next_in r.table.now f r.j at };

    ghost joined = { λ r f b a. joined_in r.table.now f r.j b a };

    fn next(&self, file: &[u8], at: u32) -> u32 {
        fields::next_at(self.table, file, self.j, at)
    }

    fn join(&self, file: &mut [u8], before: u32, after: u32) {
        links::join(self.table, file, self.j, before, after);
    }
}

// The CALC rings.
#[derive(Clone, Copy)]
struct Calc<'a> {
    table: &'a [u16],
}

impl Ring for Calc<'_> {
    ghost follows = { λ r f at. calc_next_in r.table.now f at };

    ghost joined = { λ r f b a. calc_put r.table.now f b a };

    fn next(&self, file: &[u8], at: u32) -> u32 {
        fields::calc_next_at(self.table, file, at)
    }

    fn join(&self, file: &mut [u8], before: u32, after: u32) {
        links::set_calc(self.table, file, before, after);
    }
}

// Closes a ring over what is marked, from `first`, the first after `home`, on.
fn close<R: Ring>(ring: &R, file: &mut [u8], marks: &[u8], home: u32, first: u32)
    ensures { close_from (R.follows ring.now) (R.joined ring.now) marks.now home file.old home first ring_fuel ≡ file.new }
{
    let mut last = home;
    let mut at = first;
    for turn in 0..rings::FUEL {
        if at == home {
            ring.join(file, last, home);
            return;
        }
        let next = ring.next(file, at);
        if !marks::goes(marks, at) {
            ring.join(file, last, at);
            last = at;
        }
        at = next;
    }
}

// Closes the ring of master `m` in chain `j` over what is marked.
fn close_ring(table: &[u16], file: &mut [u8], marks: &[u8], j: u16, m: u32)
    ensures { ring_closed table.now file.old marks.now j m ≡ file.new }
{
    let first = fields::next_at(table, file, j, m);
    close(&Chain { table, j }, file, marks, m, first);
}

// Closes the CALC ring of page `p` over what is marked.
fn close_calc(table: &[u16], file: &mut [u8], marks: &[u8], p: u16)
    ensures { calc_closed table.now file.old marks.now p ≡ file.new }
{
    let first = fields::head_next(file, p as u32);
    close(&Calc { table }, file, marks, 64 * p as u32, first);
}

// Closes the ring of a code in chain `j`, where it is a master that stays.
fn close_at(table: &[u16], file: &mut [u8], marks: &[u8], j: u16, code: u32)
    ensures { code_closed table.now file.old marks.now j code ≡ file.new }
{
    let kind = fields::kind_at(file, code);
    if !marks::goes(marks, code) && kind != 0 && words::is_master(table, j, kind) {
        close_ring(table, file, marks, j, code);
    }
}

// Closes every ring of chain `j`.
fn close_chain(table: &[u16], file: &mut [u8], marks: &[u8], j: u16)
    ensures { chain_closed table.now file.old marks.now j ≡ file.new }
{
    let pages = words::word(table, words::PAGES) as u32;
    for code in 64..64 + 64 * pages {
        close_at(table, file, marks, j, code);
    }
}

// Closes every ring of every chain.
fn close_chains(table: &[u16], file: &mut [u8], marks: &[u8])
    ensures { chains_closed table.now file.old marks.now ≡ file.new }
{
    for j in 0..words::word(table, words::CHAINS) {
        close_chain(table, file, marks, j);
    }
}

// Closes the CALC ring of every page.
fn close_calcs(table: &[u16], file: &mut [u8], marks: &[u8])
    ensures { calcs_closed table.now file.old marks.now ≡ file.new }
{
    for p in 1..=words::word(table, words::PAGES) {
        close_calc(table, file, marks, p);
    }
}

// Takes every marked record out of its page.
fn take_marked(file: &mut [u8], marks: &[u8])
    ensures { marks_taken file.old marks.now ≡ file.new }
{
    for code in 0..marks::MARKS as u32 {
        if marks::goes(marks, code) {
            moves::take_out(file, code);
        }
    }
}

// Carries a deletion out.
pub fn act(table: &[u16], file: &mut [u8], marks: &[u8])
    ensures { act_on table.now file.old marks.now ≡ file.new }
{
    close_chains(table, file, marks);
    close_calcs(table, file, marks);
    take_marked(file, marks);
}
