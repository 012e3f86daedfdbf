// DELETE: the record and every detail below it are marked, then entries back up, rings close, and pages close up.
// Table, file and currency stay side by side and no struct: the specification lends a table as a plain `&[u16]`, and hands currency by value.
#![tactic(auto)]

pub mod closing;

ghost use Rattle.std.specs.Prelude.{◌≡◌};
ghost use Rattle.ledger.specs.Answers.{outcome_of};
ghost use Rattle.delete_model.specs.Deletes.{delete_on};

use doomed::{entries, marks};
use ledger::{Answer, Currency, Outcome, Refusal};
use page::fields;

// Types that a table can have: the levels below a record are fewer.
const LEVELS: u16 = 16;

// DELETE: the answer names the run's record and counts all that went.
pub fn delete(table: &[u16], file: &mut [u8], cur: Currency) -> Result<Outcome, Refusal>
    ensures { delete_on table.now file.old cur ≡ (outcome_of result cur, file.new) }
{
    let x = cur.run;
    if x == 0 {
        return Err(Refusal::NoCurrent);
    }
    let mut marks = [0u8; marks::MARKS];
    let count = marks::mark_below(table, file, &mut marks, LEVELS, x);
    let answer = Answer::done(x, fields::kind_at(file, x), count);
    let after = entries::currency_after(table, file, &marks, cur);
    closing::act(table, file, &marks);
    Ok(Outcome::done(answer, after))
}
