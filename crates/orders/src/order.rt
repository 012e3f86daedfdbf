// The order of sorted rings: each detail may follow the one before it.
ghost use Rattle.std.specs.Prelude.{◌≡◌};
ghost use Rattle.ledger.specs.Numbers.{or_none};
ghost use Rattle.audit_model.specs.Orders.{in_order_in, ring_ordered_in, disordered_in, disorder_in, order_fault_in};

use page::fields;
use table::order::{Duplicates, Order};
use table::{keys, words};

// Whether record `x` may stand directly before record `y` in chain `j`: no duplicate that the rule refuses, and their keys in order.
#[tactic(auto, unfolding(audit_model::specs::Orders::in_order_in, audit_model::specs::Orders::keys_in_order, audit_model::specs::Orders::refused_twins))]
fn in_order(table: &[u16], file: &[u8], j: u16, x: u32, y: u32) -> bool
    ensures { result ≡ in_order_in table.now file.now j x y }
{
    let a = page::keys::sort_key_at(table, file, j, x);
    let b = page::keys::sort_key_at(table, file, j, y);
    if Duplicates::of(table, j) == Duplicates::Refused && keys::same_key(a, b) {
        return false;
    }
    match Order::of(table, j) {
        Order::Rising => !keys::less_key(b, a),
        _ => !keys::less_key(a, b),
    }
}

// Whether the ring of master `m` in chain `j` is in order.
fn ring_in_order(table: &[u16], file: &[u8], j: u16, m: u32) -> bool
    ensures { result ≡ ring_ordered_in table.now file.now j m }
{
    let mut at = fields::next_at(table, file, j, m);
    for _turn in 0..model::CODES {
        if at == m {
            return true;
        }
        let next = fields::next_at(table, file, j, at);
        if next == m {
            return true;
        }
        if !in_order(table, file, j, at, next) {
            return false;
        }
        at = next;
    }
    false
}

// Whether a code is a master of chain `j` whose ring is out of order.
#[tactic(auto, unfolding(audit_model::specs::Orders::disordered_in))]
fn out_of_order(table: &[u16], file: &[u8], j: u16, code: u32) -> bool
    ensures { result ≡ disordered_in table.now file.now j code }
{
    let kind = fields::kind_at(file, code);
    kind != 0 && words::is_master(table, j, kind) && !ring_in_order(table, file, j, code)
}

// The lowest master of sorted chain `j` whose ring is out of order.
fn chain_fault(table: &[u16], file: &[u8], j: u16) -> Option<u32>
    ensures { result ≡ or_none (disorder_in table.now file.now j) }
{
    if !Order::of(table, j).is_sorted() {
        return None;
    }
    let pages = words::word(table, words::PAGES) as u32;
    (64..64 + 64 * pages).find(|&code| out_of_order(table, file, j, code))
}

// The first such master of the chains in their order. A loop as in `sweeps::chains::first_fault`: one function for both would take the
// test of a chain as a closure, and ask of its callers that it may be called.
pub fn order_fault(table: &[u16], file: &[u8]) -> Option<u32>
    ensures { result ≡ or_none (order_fault_in table.now file.now) }
{
    for j in 0..words::word(table, words::CHAINS) {
        if let Some(place) = chain_fault(table, file, j) {
            return Some(place);
        }
    }
    None
}
