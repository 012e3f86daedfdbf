// Words written by place, as far as there is room, and runs of bytes as `page` writes them.
ghost use Rattle.std.specs.Prelude.{◌≡◌};
ghost use Rattle.model.specs.Moves.{two_put};

use page::writes;
pub use page::writes::put_part;

// Puts `v` into the two bytes from `i` on.
#[tactic(auto, unfolding(model::specs::Moves::two_put), using(crate::proofs::Laws::Copies::two_put_past))]
pub fn put_two(f: &mut [u8], i: usize, v: u16)
    ensures { two_put f.old i v ≡ f.new }
{
    if i < f.len() {
        let [high, low] = v.to_be_bytes();
        writes::put_byte(f, i, high);
        writes::put_byte(f, i + 1, low);
    }
}
