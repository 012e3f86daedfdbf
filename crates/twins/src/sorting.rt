// Records sorted by type and CALC key, by merging, so that twins stand side by side. A record is named by where it starts in the file.
ghost use Rattle.std.specs.Prelude.{◌≡◌, length};
ghost use Rattle.audit_model.specs.Sorting.{key_from, goes_before, second_first, merged, halves_merged, sorted};

use page::{bytes, writes};
use table::{keys, sizes, words};

// The CALC key of the record that starts at `s`.
pub fn key_from<'a>(table: &[u16], file: &'a [u8], s: u16) -> &'a [u8]
    ensures { result.now ≡ key_from table.now file.now s }
{
    let kind = bytes::two_at(file, s as usize);
    let at = sizes::HEAD as usize + words::kind_word(table, kind, words::KEY_OFFSET) as usize;
    let n = words::kind_word(table, kind, words::KEY_LENGTH) as usize;
    bytes::part_of(file, s as usize + at, n)
}

// Whether the record at `a` goes before the one at `b`: a lower type, or the type's lower key.
pub fn goes_before(table: &[u16], file: &[u8], a: u16, b: u16) -> bool
    ensures { result ≡ goes_before table.now file.now a b }
{
    let x = bytes::two_at(file, a as usize);
    let y = bytes::two_at(file, b as usize);
    x < y || x == y && keys::less_key(key_from(table, file, a), key_from(table, file, b))
}

// Of two lists to be merged, whether the second's first comes next: where the first list is at its end, or where it goes before the first's.
fn second_first(table: &[u16], file: &[u8], first: &[u16], second: &[u16]) -> bool
    ensures { result ≡ second_first (goes_before table.now file.now) first.now second.now }
{
    match (first.first(), second.first()) {
        (_, None) => false,
        (None, Some(_)) => true,
        (Some(x), Some(y)) => goes_before(table, file, *y, *x),
    }
}

// Merges two sorted lists into `out`.
fn merge(table: &[u16], file: &[u8], mut first: &[u16], mut second: &[u16], out: &mut [u16])
    ensures { merged (goes_before table.now file.now) (length out.old) first.now second.now ≡ out.new }
{
    for place in out.iter_mut() {
        let next = if second_first(table, file, first, second) {
            second.split_off_first()
        } else {
            first.split_off_first()
        };
        *place = next.copied().unwrap_or(0);
    }
}

// Merges the two halves of a list, where `scratch` has room for it.
fn merge_halves(table: &[u16], file: &[u8], list: &mut [u16], scratch: &mut [u16])
    ensures { halves_merged (goes_before table.now file.now) (length scratch.old) list.old ≡ list.new }
{
    let n = list.len();
    if scratch.len() < n {
        return;
    }
    let (first, second) = list.split_at(n / 2);
    merge(table, file, first, second, &mut scratch[..n]);
    writes::put_part(list, 0, &scratch[..n]);
}

// Sorts a list of at most 2^level records, where `scratch` has room for it.
// By hand: the library's stable sort takes a buffer from a heap, and its unstable one may leave equal keys in another order than `sorted`.
pub fn sort(table: &[u16], file: &[u8], list: &mut [u16], scratch: &mut [u16], level: u8)
    ensures { sorted (goes_before table.now file.now) (length scratch.old) level list.old ≡ list.new }
{
    if level == 0 || list.len() < 2 {
        return;
    }
    let (low, high) = list.split_at_mut(list.len() / 2);
    sort(table, file, low, scratch, level - 1);
    sort(table, file, high, scratch, level - 1);
    merge_halves(table, file, list, scratch);
}
