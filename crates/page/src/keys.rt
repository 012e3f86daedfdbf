// The keys of a record by its code.
ghost use Rattle.std.specs.Prelude.{◌≡◌};
ghost use Rattle.model.specs.Keys.{sort_key_in, calc_key_in};

use crate::fields;

// The key of chain `j` in a record.
#[tactic(auto, unfolding(model::specs::Keys::sort_key_in))]
pub fn sort_key_at<'a>(table: &[u16], file: &'a [u8], j: u16, code: u32) -> &'a [u8]
    ensures { result.now ≡ sort_key_in table.now file.now j code }
{
    fields::sort_key(
        table,
        j,
        fields::kind_at(file, code),
        fields::data_of(table, file, code),
    )
}

// The CALC key of a record.
#[tactic(auto, unfolding(model::specs::Keys::calc_key_in))]
pub fn calc_key_at<'a>(table: &[u16], file: &'a [u8], code: u32) -> &'a [u8]
    ensures { result.now ≡ calc_key_in table.now file.now code }
{
    fields::calc_key(
        table,
        fields::kind_at(file, code),
        fields::data_of(table, file, code),
    )
}
