// Runs of words: moved within one slice, filled, and bytes copied from one slice to another.
#![tactic(auto)]

ghost use Rattle.std.specs.Prelude.{◌≡◌, ◌+◌, ◌*◌, ◌≤◌, length, drop, replicate};
ghost use Rattle.std.proofs.Math.Seq.{paste};
ghost use Rattle.words.specs.Words.{words};

// The n words from `from` go to `to`, which is not below; the last block first, so that the two may overlap.
pub fn move_up(s: &mut [u8], from: usize, to: usize, n: usize)
    requires { (from ≤ to) × (8 * (to + n) ≤ length s.old) }
    ensures { words s.new ≡ paste (words s.old) to (drop from (words s.old)) n }
{
    // nearly every move is of one block: no count of blocks for it
    if n <= spans::BLOCK_WORDS {
        return spans::move_block(s, from, to, n);
    }
    for block in (0..n.div_ceil(spans::BLOCK_WORDS)).rev() {
        let at = block * spans::BLOCK_WORDS;
        spans::move_block(s, from + at, to + at, spans::BLOCK_WORDS.min(n - at));
    }
}

// The n words from `from` go to `to`, which is not above; the first block first.
pub fn move_down(s: &mut [u8], from: usize, to: usize, n: usize)
    requires { (to ≤ from) × (8 * (from + n) ≤ length s.old) }
    ensures { words s.new ≡ paste (words s.old) to (drop from (words s.old)) n }
{
    if n <= spans::BLOCK_WORDS {
        return spans::move_block(s, from, to, n);
    }
    for block in 0..n.div_ceil(spans::BLOCK_WORDS) {
        let at = block * spans::BLOCK_WORDS;
        spans::move_block(s, from + at, to + at, spans::BLOCK_WORDS.min(n - at));
    }
}

// The n words from `from` go to `to`, as if all were read before any is written.
pub fn move_words(s: &mut [u8], from: usize, to: usize, n: usize)
    requires { (8 * (from + n) ≤ length s.old) × (8 * (to + n) ≤ length s.old) }
    ensures { words s.new ≡ paste (words s.old) to (drop from (words s.old)) n }
{
    if from <= to {
        move_up(s, from, to, n)
    } else {
        move_down(s, from, to, n)
    }
}

// The n words from `at` become v.
pub fn fill(s: &mut [u8], at: usize, n: usize, v: u64)
    requires { 8 * (at + n) ≤ length s.old }
    ensures { words s.new ≡ paste (words s.old) at (replicate n v) n }
{
    for i in 0..n {
        words::write(s, at + i, v);
    }
}

// The words from `at` become those of a list.
pub fn put_words(s: &mut [u8], at: usize, list: &[u64])
    requires { 8 * (at + length list.now) ≤ length s.old }
    ensures { words s.new ≡ paste (words s.old) at list.now (length list.now) }
{
    for (i, v) in list.iter().enumerate() {
        words::write(s, at + i, *v);
    }
}

// All of src goes to d, which is as long.
pub fn copy_bytes(d: &mut [u8], src: &[u8])
    requires { length d.old ≡ length src.now }
    ensures { d.new ≡ src.now }
{
    d.copy_from_slice(src);
}
