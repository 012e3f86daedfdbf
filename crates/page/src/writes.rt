// Bytes written by place, high byte first. Past the end a write does nothing.
ghost use Rattle.std.specs.Prelude.{◌≡◌, ◌+◌, slice_set};
ghost use Rattle.model.specs.Writes.{three_put};
ghost use Rattle.model.specs.Moves.{part_put};

pub fn put_byte(f: &mut [u8], i: usize, b: u8)
    ensures { slice_set f.old i b ≡ f.new }
{
    if i < f.len() {
        f[i] = b;
    }
}

// Puts `data` from `at` on, as far as there is room. One by one: the library's copy needs a `memmove`, which a host of the archives may not have.
pub fn put_part<T: Copy>(f: &mut [T], at: usize, data: &[T])
    ensures { part_put f.old at «data».now ≡ f.new }
{
    if at < f.len() {
        let n = data.len().min(f.len() - at);
        for i in 0..n {
            f[at + i] = data[i];
        }
    }
}

// Byte by byte: a copy of a part whose length is not known to the compiler costs a call.
#[tactic(auto, unfolding(model::specs::Writes::three_put), using(crate::proofs::Laws::Writes::three_put_past))]
pub fn put_three(f: &mut [u8], i: usize, v: u32)
    ensures { three_put f.old i v ≡ f.new }
{
    if i < f.len() {
        let [_, high, middle, low] = v.to_be_bytes();
        put_byte(f, i, high);
        put_byte(f, i + 1, middle);
        put_byte(f, i + 2, low);
    }
}

// Puts `v` into the three bytes from `o + k` on.
pub fn put_three_off(f: &mut [u8], o: usize, k: usize, v: u32)
    ensures { three_put f.old (o + k) v ≡ f.new }
{
    if o < f.len() && k < f.len() - o {
        put_three(f, o + k, v);
    }
}
