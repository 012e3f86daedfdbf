// The two kinds of ring, a chain's and CALC's, and the walks along either.
ghost use Rattle.std.specs.Prelude.{◌≡◌, ℕ, Bool, eqb};
ghost use Rattle.ledger.specs.Pages.{line_of};
ghost use Rattle.model.specs.Reads.{next_in, calc_next_in};
ghost use Rattle.ring_model.specs.Rings.{ring_fuel, back_from, found_from, found_or_none, next_without_in, stops_in, has_key_in, has_calc_key_in};

use crate::{FUEL, stops};
use model::Found;
use page::fields;
use table::keys;

// The place of the first after a header or a master.
const FIRST: u16 = 1;

// A ring: the code after each, and where it has come home.
pub(crate) trait Ring {
    ghost follows: { Self → ℕ → ℕ };

    ghost comes_home: { Self → ℕ → Bool };

    fn next(&self, at: u32) -> u32
        ensures { result ≡ follows self.now at };

    fn is_home(&self, at: u32) -> bool
        ensures { result ≡ comes_home self.now at };
}

// What is looked for in a ring. A trait and no closure: to call one takes a `requires`, and no function of the project has one.
pub(crate) trait Sought {
    ghost fits: { Self → ℕ → Bool };

    fn fits(&self, code: u32) -> bool
        ensures { result ≡ fits self.now code };
}

// A ring of chain `j`, from its record `home` on.
#[derive(Clone, Copy)]
pub(crate) struct Chain<'a> {
    pub(crate) table: &'a [u16],
    pub(crate) file: &'a [u8],
    pub(crate) j: u16,
    pub(crate) home: u32,
}

impl Ring for Chain<'_> {
    ghost follows = { λ r at. next_in r.table.now r.file.now r.j at };

    ghost comes_home = { λ r at. eqb at r.home };

    fn next(&self, at: u32) -> u32 {
        fields::next_at(self.table, self.file, self.j, at)
    }

    fn is_home(&self, at: u32) -> bool {
        at == self.home
    }
}

impl Chain<'_> {
    // The record after `at` in the ring that leaves `x` out.
    #[tactic(auto, unfolding(ring_model::specs::Rings::next_without_in))]
    pub(crate) fn next_without(&self, x: u32, at: u32) -> u32
        ensures { result ≡ next_without_in self.now.table.now self.now.file.now self.now.j x at }
    {
        let next = self.next(at);
        if next == x { self.next(x) } else { next }
    }

    // Whether record `y` stops a record with this key on its way along the ring.
    #[tactic(auto, unfolding(ring_model::specs::Rings::stops_in))]
    pub(crate) fn stops(&self, key: &[u8], y: u32) -> bool
        ensures { result ≡ stops_in self.now.table.now self.now.file.now self.now.j key.now y }
    {
        let other = page::keys::sort_key_at(self.table, self.file, self.j, y);
        stops::key_stops(self.table, self.j, key, other)
    }
}

// A page's CALC ring; its header's code has line 0.
#[derive(Clone, Copy)]
pub(crate) struct Calc<'a> {
    pub(crate) table: &'a [u16],
    pub(crate) file: &'a [u8],
}

impl Ring for Calc<'_> {
    ghost follows = { λ r at. calc_next_in r.table.now r.file.now at };

    ghost comes_home = { λ r at. eqb (line_of at) 0 };

    fn next(&self, at: u32) -> u32 {
        fields::calc_next_at(self.table, self.file, at)
    }

    fn is_home(&self, at: u32) -> bool {
        at % 64 == 0
    }
}

// A record other than `x` of the ring with this sort key.
#[derive(Clone, Copy)]
pub(crate) struct SortKey<'a> {
    pub(crate) ring: Chain<'a>,
    pub(crate) key: &'a [u8],
    pub(crate) x: u32,
}

impl Sought for SortKey<'_> {
    ghost fits = { λ s at. has_key_in s.ring.table.now s.ring.file.now s.ring.j s.key.now s.x at };

    #[tactic(auto, unfolding(ring_model::specs::Rings::has_key_in))]
    fn fits(&self, code: u32) -> bool {
        let ring = self.ring;
        code != self.x
            && keys::same_key(
                page::keys::sort_key_at(ring.table, ring.file, ring.j, code),
                self.key,
            )
    }
}

// A record other than `x` of the ring, of this type and with this CALC key.
#[derive(Clone, Copy)]
pub(crate) struct CalcKey<'a> {
    pub(crate) ring: Calc<'a>,
    pub(crate) kind: u16,
    pub(crate) key: &'a [u8],
    pub(crate) x: u32,
}

impl Sought for CalcKey<'_> {
    ghost fits = { λ s at. has_calc_key_in s.ring.table.now s.ring.file.now s.kind s.key.now s.x at };

    #[tactic(auto, unfolding(ring_model::specs::Rings::has_calc_key_in))]
    fn fits(&self, code: u32) -> bool {
        let ring = self.ring;
        code != self.x
            && fields::kind_at(ring.file, code) == self.kind
            && keys::same_key(
                page::keys::calc_key_at(ring.table, ring.file, code),
                self.key,
            )
    }
}

// What comes before `code` on the way along a ring from `first` on; `last` comes before `first`.
#[tactic(auto, using(crate::proofs::Laws::back_turn, crate::proofs::Laws::back_end))]
pub(crate) fn before<R: Ring>(ring: &R, code: u32, last: u32, first: u32) -> u32
    ensures { result ≡ back_from (R.follows ring.now) code last first ring_fuel }
{
    let mut before = last;
    let mut at = first;
    for _turn in 0..FUEL {
        if at == code {
            return before;
        }
        before = at;
        at = ring.next(at);
    }
    before
}

// The first that fits on the way along a ring from `first` to its home, and the links followed to it.
#[tactic(auto, using(crate::proofs::Laws::found_turn, crate::proofs::Laws::found_end), unfolding(ring_model::specs::Rings::found_or_none))]
pub(crate) fn find<R: Ring, S: Sought>(ring: &R, sought: &S, first: u32) -> Option<Found>
    ensures { result ≡ found_or_none (found_from (R.follows ring.now) (R.comes_home ring.now) (S.fits sought.now) first 1 ring_fuel) }
{
    let mut at = first;
    for place in FIRST..=FUEL {
        if ring.is_home(at) {
            return None;
        }
        if sought.fits(at) {
            return Some(Found { code: at, place });
        }
        at = ring.next(at);
    }
    None
}
