// Refusals 1 to 4, before any call's own.
ghost use Rattle.std.specs.Prelude.{◌≡◌};
ghost use Rattle.ledger.specs.Answers.{number_of};
ghost use Rattle.ledger.specs.Promise.{Checks, ChecksSize};
ghost use Rattle.store_model.specs.Checks.{size_refusal, refusal_on};

use audit::faults;
use ledger::{Currency, Refusal};
use looks::currency;
use page::lookup;
use table::{rules, words};

// Refusals 1 and 2: all that FORMAT asks.
pub fn check_size(table: &[u16], file: &[u8]) -> Result<(), Refusal>
    ensures computed { number_of result ≡ size_refusal table.now file.now }
    ensures exactly { ChecksSize table.now file.now (number_of result) }
{
    if !rules::accepted(table) {
        return Err(Refusal::BadTable);
    }
    if file.len() != lookup::PAGE_BYTES * (words::word(table, words::PAGES) as usize) {
        return Err(Refusal::BadSize);
    }
    Ok(())
}

// The first of refusals 1 to 4 that is due.
pub fn check(table: &[u16], file: &[u8], cur: Currency) -> Result<(), Refusal>
    ensures computed { number_of result ≡ refusal_on table.now file.now cur }
    ensures exactly { Checks table.now file.now cur (number_of result) }
{
    check_size(table, file)?;
    faults::audit(table, file)?;
    if !currency::in_force(table, file, cur) {
        return Err(Refusal::BadCurrency);
    }
    Ok(())
}
