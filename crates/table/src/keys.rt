// Keys: randomizing, the home page, and the order of unsigned bytes, the first most significant.
ghost use Rattle.std.specs.Prelude.{◌≡◌, ◌+◌, ◌*◌, ◌%◌};
ghost use Rattle.ledger.specs.Numbers.{same_key, less_key};
ghost use Rattle.ledger.specs.Pages.{hash_from, home};

use super::words;

// One step of randomizing: doubles and adds in 16 bits, wrapping on purpose.
fn add_byte(h: u16, byte: u8) -> u16
    ensures { result ≡ (2 * h + byte) % 65536 }
{
    h.wrapping_mul(2).wrapping_add(byte as u16)
}

// Randomizing: a step for each byte of the key.
pub fn randomize(key: &[u8]) -> u16
    ensures { result ≡ hash_from 0 key.now }
{
    key.iter().fold(0, |h, &byte| add_byte(h, byte))
}

// The page whose CALC ring holds the records of a type with this key: the low page where the range's ends are crossed.
pub fn home_page(table: &[u16], number: u16, key: &[u8]) -> u32
    ensures { result ≡ home table.now number key.now }
{
    let low = words::kind_word(table, number, words::LOW_PAGE);
    let high = words::kind_word(table, number, words::HIGH_PAGE);
    if high < low {
        return low as u32;
    }
    low as u32 + randomize(key) as u32 % ((high - low) as u32 + 1)
}

// Whether two keys are the same bytes.
pub fn same_key(a: &[u8], b: &[u8]) -> bool
    ensures { result ≡ same_key a.now b.now }
{
    a == b
}

// Whether key `a` comes before key `b`: a key that is the front of another comes before it.
pub fn less_key(a: &[u8], b: &[u8]) -> bool
    ensures { result ≡ less_key a.now b.now }
{
    a.cmp(b).is_lt()
}
