// The C interface: one call on lent memory (bindings/c/gerunjap.h).
#![tactic(auto)]

ghost use Rattle.std.specs.Prelude.{◌≡◌};
ghost use Rattle.ledger.specs.Interface.{Lends};
ghost use Rattle.gerunjap_model.specs.Lent.{call_on};

// Plays one frame on a lent table, file, currency and output, and puts its answer. At any status but ANSWERED nothing is written.
#[unsafe(no_mangle)]
pub extern "C" fn gerunjap_call(
    table: &[u16],
    file: &mut [u8],
    currency: &mut [u32],
    frame: &[u8],
    output: &mut [u8],
    answer: &mut [u8],
) -> u8
    ensures computed { call_on table.now file.old currency.old frame.now output.old answer.old ≡ (result, file.new, currency.new, output.new, answer.new) }
    ensures lends { Lends table.now file.old file.new currency.old currency.new frame.now output.old output.new answer.old answer.new result }
{
    gerunjap::gerunjap_call(table, file, currency, frame, output, answer)
}
