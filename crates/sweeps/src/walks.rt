// Walks of rings over marks, a byte for each code: 0 where no walk has met it.
ghost use Rattle.std.specs.Prelude.{◌≡◌, ℕ, Bool, List, ◌+◌, ◌*◌, ◌-◌, ◌≤◌, ◌<◌, set, unwrap_or, IfSome};
ghost use Rattle.ledger.specs.Numbers.{or_none, run, first_of};
ghost use Rattle.audit_model.specs.Marks.{Walk, walk_on, sweep_on};

use page::writes;

// One mark a code. A byte and no bool: `walk_on` sets 1 in a list of numbers.
pub(crate) const MARKS: usize = model::CODES as usize;

// One ring.
pub(crate) trait Ring {
    ghost met: { Self → List ℕ → ℕ → ℕ → ℕ };

    ghost back: { Self → ℕ → Bool };

    // The code after `at`, where `at` may be met with such marks after `last`.
    fn next(&self, marks: &[u8], last: u32, at: u32) -> Option<u32>
        ensures { result ≡ or_none (met self.now marks.now last at) };

    // Whether the ring may close after `last`.
    fn closes(&self, last: u32) -> bool
        ensures { result ≡ back self.now last };
}

// The rings of a chain, or of CALC.
pub(crate) trait Rings {
    ghost walks: { Self → ℕ → List ℕ → Walk };

    ghost unmet: { Self → List ℕ → ℕ → Bool };

    // Whether what starts there, if a ring does, is walked home; what the walk meets is marked.
    fn walk(&self, marks: &mut [u8], start: u32) -> bool
        ensures { walks self.now start marks.old ≡ (result, marks.new) };

    // Whether a code is in none of the rings walked, and has to be.
    fn is_unmet(&self, marks: &[u8], code: u32) -> bool
        ensures { result ≡ unmet self.now marks.now code };
}

// A link as it stands in a file, where 0 leads to no record.
#[tactic(auto, unfolding(ledger::specs::Numbers::or_none))]
pub(crate) fn link(code: u32) -> Option<u32>
    ensures { result ≡ or_none code }
{
    (code != 0).then_some(code)
}

fn mark(marks: &mut [u8], code: u32)
    ensures { set marks.old code 1 ≡ marks.new }
{
    writes::put_byte(marks, code as usize, 1);
}

// Whether a walk that has come from `before` to `first` comes home; what it meets is marked.
pub(crate) fn walk_home<R: Ring>(
    ring: &R,
    marks: &mut [u8],
    home: u32,
    before: u32,
    first: u32,
) -> bool
    ensures { walk_on 8256 (R.met ring.now) (R.back ring.now) home before first marks.old ≡ (result, marks.new) }
{
    let mut last = before;
    let mut at = first;
    for _turn in 0..model::CODES {
        if at == home {
            return ring.closes(last);
        }
        let Some(next) = ring.next(marks, last, at) else {
            return false;
        };
        mark(marks, at);
        last = at;
        at = next;
    }
    false
}

// The lowest start, from `first` on and below `end`, whose walk fails; all that walks meet is marked.
pub(crate) fn astray<R: Rings>(rings: &R, marks: &mut [u8], first: u32, end: u32) -> Option<u32>
    ensures swept { sweep_on (R.walks rings.now) (run first (end - first)) marks.old ≡ (unwrap_or result 0, marks.new) }
    ensures within { IfSome result (λ start. (first ≤ start) × (start < end)) }
{
    for start in first..end {
        if !rings.walk(marks, start) {
            return Some(start);
        }
    }
    None
}

// The lowest code unmet.
pub(crate) fn unmet<R: Rings>(rings: &R, marks: &[u8], pages: u16) -> Option<u32>
    ensures { result ≡ or_none (first_of (R.unmet rings.now marks.now) (run 64 (64 * pages))) }
{
    (64..64 + 64 * pages as u32).find(|&code| rings.is_unmet(marks, code))
}
