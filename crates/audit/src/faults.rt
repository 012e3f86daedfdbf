// The audit: the first fault of a file, phase by phase, and where it is.
ghost use Rattle.std.specs.Prelude.{◌≡◌};
ghost use Rattle.ledger.specs.Numbers.{or_none};
ghost use Rattle.audit_model.specs.Faults.{ring_place, order_place, audit_on};

use model::Fault;
use orders::order;
use scan::pages;
use sweeps::{calcs, chains};

// The place of the first ring fault: CALC, then each chain.
#[tactic(auto, using(audit_model::proofs::Nones::found_or_none), unfolding(audit_model::specs::Faults::ring_place, audit_model::specs::Faults::first_place))]
fn ring_place(table: &[u16], file: &[u8]) -> Option<u32>
    ensures { result ≡ or_none (ring_place table.now file.now) }
{
    calcs::calc_fault(table, file).or_else(|| chains::first_fault(table, file))
}

// The place of the first fault of duplicates and order, in the same sequence.
#[tactic(auto, using(audit_model::proofs::Nones::found_or_none), unfolding(audit_model::specs::Faults::order_place, audit_model::specs::Faults::first_place))]
fn order_place(table: &[u16], file: &[u8]) -> Option<u32>
    ensures { result ≡ or_none (order_place table.now file.now) }
{
    twins::twins::twin_fault(table, file).or_else(|| order::order_fault(table, file))
}

// The first fault of a file: of its pages, then of its rings, then of duplicates and order.
#[tactic(auto, using(audit_model::proofs::Nones::found_or_none), unfolding(audit_model::specs::Faults::audit_on))]
pub fn audit(table: &[u16], file: &[u8]) -> Result<(), Fault>
    ensures { result ≡ audit_on table.now file.now }
{
    if let Some(page) = pages::faulty_page(table, file) {
        return Err(Fault::Page(page));
    }
    if let Some(place) = ring_place(table, file) {
        return Err(Fault::Ring(place));
    }
    if let Some(place) = order_place(table, file) {
        return Err(Fault::Order(place));
    }
    Ok(())
}
