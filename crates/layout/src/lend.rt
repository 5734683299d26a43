// A slice in parts of one size.
ghost use Rattle.std.specs.Prelude.{◌≡◌, ℕ, List, ◌*◌, ◌<◌, length};
ghost use Rattle.std.specs.Borrow.{MutBor};
ghost use Rattle.layout.specs.Each.{part_of};

// A step on each of so many parts of so many words, in order.
pub fn each_part<F: Fn(usize, &mut [u8])>(s: &mut [u8], size: usize, count: usize, step: F)
    requires whole { length s.old ≡ 8 * (count * size) }
    requires callable { (i : ℕ) → (x : MutBor (List ℕ)) → i < count → x.now ≡ part_of size i s.old → F.pre step i x }
    ensures { (i : ℕ) → i < count → (x : MutBor (List ℕ)) × ((y : MutBor (List ℕ)) × ((x.now ≡ part_of size i s.old) × (y.now ≡ part_of size i s.new) × F.post step i x tt y)) }
{
    for i in 0..count {
        let at = 8 * words::offset(i, size, count);
        step(i, &mut s[at..at + 8 * size]);
    }
}
