// Where a record joins a ring of a chain, by the chain's words.
ghost use Rattle.std.specs.Prelude.{◌≡◌};
ghost use Rattle.ledger.specs.Table.{order, duplicates};
ghost use Rattle.table.specs.Orders.{order_of, sorts, duplicates_of};

use super::words;

// A chain's order, as its word says; falling for words past the values, which no accepted table has.
#[derive(Clone, Copy, Debug, PartialEq, Eq)]
pub enum Order {
    First,
    Last,
    Rising,
    Falling,
}

impl Order {
    pub fn of(table: &[u16], j: u16) -> Self
        ensures { result ≡ order_of (order table.now j) }
    {
        match words::chain_word(table, j, words::ORDER) {
            0 => Order::First,
            1 => Order::Last,
            2 => Order::Rising,
            _ => Order::Falling,
        }
    }

    // Whether records stand by their keys.
    pub fn is_sorted(self) -> bool
        ensures { result ≡ sorts self }
    {
        matches!(self, Order::Rising | Order::Falling)
    }
}

// Where a record joins among those with its key, in a sorted chain; last for words past its values.
#[derive(Clone, Copy, Debug, PartialEq, Eq)]
pub enum Duplicates {
    First,
    Last,
    Refused,
}

impl Duplicates {
    pub fn of(table: &[u16], j: u16) -> Self
        ensures { result ≡ duplicates_of (duplicates table.now j) }
    {
        match words::chain_word(table, j, words::DUPLICATES) {
            0 => Duplicates::First,
            2 => Duplicates::Refused,
            _ => Duplicates::Last,
        }
    }
}
