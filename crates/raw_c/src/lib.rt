// For measuring only, for C: calls on lent memory without refusals 1 to 4, and these refusals alone (bench/). No host should link it for its work.
#![tactic(auto)]

ghost use Rattle.std.specs.Prelude.{◌≡◌};
ghost use Rattle.raw_model.specs.Raws.{check_on, raw_on};

// The first of refusals 1 to 4 that is due, or 0.
#[unsafe(no_mangle)]
pub extern "C" fn gerunjap_check(table: &[u16], file: &[u8], currency: &[u32]) -> u8
    ensures { result ≡ check_on table.now file.now currency.now }
{
    raw::gerunjap_check(table, file, currency)
}

// As gerunjap_call, without refusals 1 to 4 but for FORMAT's. On a file that is not sound it still comes back, but its answer means nothing.
#[unsafe(no_mangle)]
pub extern "C" fn gerunjap_raw(
    table: &[u16],
    file: &mut [u8],
    currency: &mut [u32],
    frame: &[u8],
    output: &mut [u8],
    answer: &mut [u8],
) -> u8
    ensures { raw_on table.now file.old currency.old frame.now output.old answer.old ≡ (result, file.new, currency.new, output.new, answer.new) }
{
    raw::gerunjap_raw(table, file, currency, frame, output, answer)
}
