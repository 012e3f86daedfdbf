// The public calls: refusals 1 to 4, then the call's own work. Each comes back done, or refused with nothing changed.

// Each asks `check` by itself: with the work handed on as a closure, which would hold the file that is lent for a change, a call is no shorter.
// Table, file and currency stay side by side and no struct: the specification lends a table as a plain `&[u16]`, and hands currency by value.
ghost use Rattle.std.specs.Prelude.{◌≡◌, [], ◌∷◌};
ghost use Rattle.ledger.specs.Calls.{STORE, DIRECT, KEY, NEXT, PRIOR, MASTER, EACH, MODIFY, DELETE, CURRENT, FIND, RELINK, UNKNOWN};
ghost use Rattle.ledger.specs.Promise.{ComesBack, Plays, Formats, Reads, turn_of};
ghost use Rattle.store_model.specs.Calls.{format_call, store_call, direct_call, key_call, next_call, prior_call, master_call, each_call, modify_call, delete_call, read_call, current_call, find_call, relink_call, unknown_call};

use crate::{changes, checks};
use ledger::{Answer, Currency, Outcome};
use records::moves;

// FORMAT: an empty file and all-zero currency.
pub fn format(table: &[u16], file: &mut [u8], cur: Currency) -> Outcome
    ensures computed { format_call table.now file.old cur ≡ (result, file.new) }
    ensures back { ComesBack (1 ∷ 2 ∷ []) file.old file.new cur result }
    ensures formats { Formats table.now file.old file.new cur result }
{
    if let Err(why) = checks::check_size(table, file) {
        return Outcome::refused(why.code(), cur);
    }
    moves::format_file(file);
    Outcome::done(Answer::done(0, 0, 0), Currency::none())
}

// STORE
pub fn store(table: &[u16], file: &mut [u8], cur: Currency, kind: u16, data: &[u8]) -> Outcome
    ensures computed { store_call table.now file.old cur kind «data».now ≡ (result, file.new) }
    ensures back { ComesBack (1 ∷ 2 ∷ 3 ∷ 4 ∷ 5 ∷ 6 ∷ 8 ∷ 10 ∷ 11 ∷ []) file.old file.new cur result }
    ensures plays { Plays (turn_of table.now cur (STORE kind «data».now)) table.now file.old file.new cur result }
{
    if let Err(why) = checks::check(table, file, cur) {
        return Outcome::refused(why.code(), cur);
    }
    Outcome::of(changes::store(table, file, cur, kind, data), cur)
}

// DIRECT
pub fn direct(table: &[u16], file: &[u8], cur: Currency, code: u32) -> Outcome
    ensures computed { result ≡ direct_call table.now file.now cur code }
    ensures back { ComesBack (1 ∷ 2 ∷ 3 ∷ 4 ∷ 9 ∷ []) file.now file.now cur result }
    ensures plays { Plays (turn_of table.now cur (DIRECT code)) table.now file.now file.now cur result }
{
    if let Err(why) = checks::check(table, file, cur) {
        return Outcome::refused(why.code(), cur);
    }
    Outcome::of(looks::calls::direct(table, file, cur, code), cur)
}

// KEY
pub fn key(table: &[u16], file: &[u8], cur: Currency, kind: u16, key: &[u8]) -> Outcome
    ensures computed { result ≡ key_call table.now file.now cur kind key.now }
    ensures back { ComesBack (1 ∷ 2 ∷ 3 ∷ 4 ∷ 5 ∷ 7 ∷ 8 ∷ 9 ∷ []) file.now file.now cur result }
    ensures plays { Plays (turn_of table.now cur (KEY kind key.now)) table.now file.now file.now cur result }
{
    if let Err(why) = checks::check(table, file, cur) {
        return Outcome::refused(why.code(), cur);
    }
    Outcome::of(looks::calls::key(table, file, cur, kind, key), cur)
}

// NEXT
pub fn next(table: &[u16], file: &[u8], cur: Currency, j: u16) -> Outcome
    ensures computed { result ≡ next_call table.now file.now cur j }
    ensures back { ComesBack (1 ∷ 2 ∷ 3 ∷ 4 ∷ 5 ∷ 6 ∷ []) file.now file.now cur result }
    ensures plays { Plays (turn_of table.now cur (NEXT j)) table.now file.now file.now cur result }
{
    if let Err(why) = checks::check(table, file, cur) {
        return Outcome::refused(why.code(), cur);
    }
    Outcome::of(looks::calls::next(table, file, cur, j), cur)
}

// PRIOR
pub fn prior(table: &[u16], file: &[u8], cur: Currency, j: u16) -> Outcome
    ensures computed { result ≡ prior_call table.now file.now cur j }
    ensures back { ComesBack (1 ∷ 2 ∷ 3 ∷ 4 ∷ 5 ∷ 6 ∷ []) file.now file.now cur result }
    ensures plays { Plays (turn_of table.now cur (PRIOR j)) table.now file.now file.now cur result }
{
    if let Err(why) = checks::check(table, file, cur) {
        return Outcome::refused(why.code(), cur);
    }
    Outcome::of(looks::calls::prior(table, file, cur, j), cur)
}

// MASTER
pub fn master(table: &[u16], file: &[u8], cur: Currency, j: u16) -> Outcome
    ensures computed { result ≡ master_call table.now file.now cur j }
    ensures back { ComesBack (1 ∷ 2 ∷ 3 ∷ 4 ∷ 5 ∷ 6 ∷ []) file.now file.now cur result }
    ensures plays { Plays (turn_of table.now cur (MASTER j)) table.now file.now file.now cur result }
{
    if let Err(why) = checks::check(table, file, cur) {
        return Outcome::refused(why.code(), cur);
    }
    Outcome::of(looks::calls::master(table, file, cur, j), cur)
}

// EACH
pub fn each(table: &[u16], file: &[u8], cur: Currency, first: u32, last: u32) -> Outcome
    ensures computed { result ≡ each_call table.now file.now cur first last }
    ensures back { ComesBack (1 ∷ 2 ∷ 3 ∷ 4 ∷ 9 ∷ []) file.now file.now cur result }
    ensures plays { Plays (turn_of table.now cur (EACH first last)) table.now file.now file.now cur result }
{
    if let Err(why) = checks::check(table, file, cur) {
        return Outcome::refused(why.code(), cur);
    }
    Outcome::of(looks::calls::each(table, file, cur, first, last), cur)
}

// MODIFY
pub fn modify(table: &[u16], file: &mut [u8], cur: Currency, data: &[u8]) -> Outcome
    ensures computed { modify_call table.now file.old cur «data».now ≡ (result, file.new) }
    ensures back { ComesBack (1 ∷ 2 ∷ 3 ∷ 4 ∷ 6 ∷ 8 ∷ 10 ∷ []) file.old file.new cur result }
    ensures plays { Plays (turn_of table.now cur (MODIFY «data».now)) table.now file.old file.new cur result }
{
    if let Err(why) = checks::check(table, file, cur) {
        return Outcome::refused(why.code(), cur);
    }
    Outcome::of(changes::modify(table, file, cur, data), cur)
}

// DELETE
pub fn delete(table: &[u16], file: &mut [u8], cur: Currency) -> Outcome
    ensures computed { delete_call table.now file.old cur ≡ (result, file.new) }
    ensures back { ComesBack (1 ∷ 2 ∷ 3 ∷ 4 ∷ 6 ∷ []) file.old file.new cur result }
    ensures plays { Plays (turn_of table.now cur DELETE) table.now file.old file.new cur result }
{
    if let Err(why) = checks::check(table, file, cur) {
        return Outcome::refused(why.code(), cur);
    }
    Outcome::of(deletes::delete(table, file, cur), cur)
}

// READ: only the front of the output changes.
pub fn read(table: &[u16], file: &[u8], cur: Currency, output: &mut [u8]) -> Outcome
    ensures computed { read_call table.now file.now cur output.old ≡ (result, output.new) }
    ensures back { ComesBack (1 ∷ 2 ∷ 3 ∷ 4 ∷ 6 ∷ 12 ∷ []) output.old output.new cur result }
    ensures reads { Reads table.now file.now output.old output.new cur result }
{
    if let Err(why) = checks::check(table, file, cur) {
        return Outcome::refused(why.code(), cur);
    }
    Outcome::of(looks::calls::read(table, file, cur, output), cur)
}

// CURRENT
pub fn current(table: &[u16], file: &[u8], cur: Currency, kind: u16) -> Outcome
    ensures computed { result ≡ current_call table.now file.now cur kind }
    ensures back { ComesBack (1 ∷ 2 ∷ 3 ∷ 4 ∷ 5 ∷ 6 ∷ []) file.now file.now cur result }
    ensures plays { Plays (turn_of table.now cur (CURRENT kind)) table.now file.now file.now cur result }
{
    if let Err(why) = checks::check(table, file, cur) {
        return Outcome::refused(why.code(), cur);
    }
    Outcome::of(looks::calls::current(table, file, cur, kind), cur)
}

// FIND
pub fn find(table: &[u16], file: &[u8], cur: Currency, j: u16, key: &[u8]) -> Outcome
    ensures computed { result ≡ find_call table.now file.now cur j key.now }
    ensures back { ComesBack (1 ∷ 2 ∷ 3 ∷ 4 ∷ 5 ∷ 6 ∷ 7 ∷ 8 ∷ 9 ∷ []) file.now file.now cur result }
    ensures plays { Plays (turn_of table.now cur (FIND j key.now)) table.now file.now file.now cur result }
{
    if let Err(why) = checks::check(table, file, cur) {
        return Outcome::refused(why.code(), cur);
    }
    Outcome::of(looks::calls::find(table, file, cur, j, key), cur)
}

// RELINK
pub fn relink(table: &[u16], file: &mut [u8], cur: Currency, j: u16, m: u32) -> Outcome
    ensures computed { relink_call table.now file.old cur j m ≡ (result, file.new) }
    ensures back { ComesBack (1 ∷ 2 ∷ 3 ∷ 4 ∷ 5 ∷ 6 ∷ 7 ∷ 9 ∷ 10 ∷ []) file.old file.new cur result }
    ensures plays { Plays (turn_of table.now cur (RELINK j m)) table.now file.old file.new cur result }
{
    if let Err(why) = checks::check(table, file, cur) {
        return Outcome::refused(why.code(), cur);
    }
    Outcome::of(changes::relink(table, file, cur, j, m), cur)
}

// A call that there is not.
pub fn unknown(table: &[u16], file: &[u8], cur: Currency) -> Outcome
    ensures computed { result ≡ unknown_call table.now file.now cur }
    ensures back { ComesBack (1 ∷ 2 ∷ 3 ∷ 4 ∷ 5 ∷ []) file.now file.now cur result }
    ensures plays { Plays (turn_of table.now cur UNKNOWN) table.now file.now file.now cur result }
{
    if let Err(why) = checks::check(table, file, cur) {
        return Outcome::refused(why.code(), cur);
    }
    Outcome::refused(Answer::UNKNOWN, cur)
}
