// Chunks leave a log: those without a mark, or those that are not saved. Rows and cells close up in their order, and the positions are filtered and
// numbered anew, all in one pass each. Rows past those that stay get their words back.
#![tactic(auto)]

ghost use Rattle.std.specs.Prelude.{◌≡◌, ℕ, ◌+◌, ◌*◌, ◌<◌, ◌≤◌, eqb, length, get_or, drop};
ghost use Rattle.std.proofs.Math.Seq.{paste};
ghost use Rattle.words.specs.Words.{words};
ghost use Rattle.rules.specs.Chunks.{only_saved};
ghost use Rattle.codec.specs.Codec.{change};
ghost use Rattle.chunk_log.specs.Log.{chunks_codec, log_size, position_at, LogWith, IsLog};
ghost use Rattle.sweep.specs.Sweep.{ranked, pick_first, put_positions, moved, RenumberStep, PackStep, PackAll};
ghost use Rattle.sweep.specs.Marks.{with_marks, swept};

use rules::numbers::ChunkKey;

// Each saved word gets four times its row's rank among the rows that stay.
fn rank(log: &mut [u8], chunks: usize, width: usize, n: usize)
    requires log_with { LogWith 3 chunks width (words log.old) (length log.old) }
    requires n_value { n ≡ get_or (words log.old) 0 0 }
    ensures { words log.new ≡ ranked chunks width n (words log.old) }
{
    let mut m = 0;
    for i in 0..n {
        let s = words::read(log, 2 + 2 * i);
        words::write(log, 2 + 2 * i, s + 4 * m);
        m += s / 2;
    }
}

// The position at index j, where its row stays, goes to index o as the row's rank.
fn renumber_at(log: &mut [u8], chunks: usize, j: usize, o: usize) -> usize
    requires { (o ≤ j) × (j < chunks) × (position_at chunks (words log.old) j < chunks) × (8 * (1 + 3 * chunks) ≤ length log.old) }
    ensures { RenumberStep chunks j o (words log.old) (words log.new) result }
{
    let q = words::read(log, 1 + 2 * chunks + j) as usize;
    let v = words::read(log, 2 + 2 * q);
    if v % 4 / 2 == 1 {
        words::write(log, 1 + 2 * chunks + o, v / 4);
        return o + 1;
    }
    o
}

fn renumber(log: &mut [u8], chunks: usize, width: usize, n: usize)
    requires n_le_chunks { (n ≤ chunks) × (length log.old ≡ 8 * log_size chunks width) }
    requires by_index { (j : ℕ) → j < n → position_at chunks (words log.old) j < n }
    ensures { words log.new ≡ put_positions chunks (pick_first chunks (words log.old) n) (words log.old) }
{
    let mut o = 0;
    for j in 0..n {
        o = renumber_at(log, chunks, j, o);
    }
}

// The n words from `from` go to `to`, which is not above.
fn carry(log: &mut [u8], from: usize, to: usize, n: usize)
    requires { (to ≤ from) × (8 * (from + n) ≤ length log.old) }
    ensures { words log.new ≡ paste (words log.old) to (drop from (words log.old)) n }
{
    if to < from {
        moves::move_down(log, from, to, n);
    }
}

// Cell i goes to index o.
fn carry_cell(log: &mut [u8], chunks: usize, width: usize, i: usize, o: usize)
    requires { (o ≤ i) × (i < chunks) × (length log.old ≡ 8 * log_size chunks width) }
    ensures { words log.new ≡ moved chunks width i o (words log.old) }
{
    let from = words::offset(i, width, chunks);
    let to = words::offset(o, width, chunks);
    carry(log, 1 + 3 * chunks + from, 1 + 3 * chunks + to, width);
}

// Row i loses its mark and rank, and where it stays goes to index o with its cell.
fn pack_at(log: &mut [u8], chunks: usize, width: usize, i: usize, o: usize) -> usize
    requires { (o ≤ i) × (i < chunks) × (length log.old ≡ 8 * log_size chunks width) }
    ensures { PackStep chunks width i o (words log.old) (words log.new) result }
{
    let key = words::read(log, 1 + 2 * i);
    let v = words::read(log, 2 + 2 * i);
    words::write(log, 2 + 2 * i, v % 2);
    if v % 4 / 2 == 1 {
        words::write(log, 1 + 2 * o, key);
        words::write(log, 2 + 2 * o, v % 2);
        carry_cell(log, chunks, width, i, o);
        return o + 1;
    }
    o
}

fn pack(log: &mut [u8], chunks: usize, width: usize, n: usize) -> usize
    requires { (n ≤ chunks) × (length log.old ≡ 8 * log_size chunks width) × (n ≡ get_or (words log.old) 0 0) }
    ensures { PackAll chunks width n (words log.old) (words log.new) result }
{
    let mut o = 0;
    for i in 0..n {
        o = pack_at(log, chunks, width, i, o);
    }
    o
}

// The chunks without a mark go.
pub fn keep_marked(log: &mut [u8], chunks: usize, width: usize)
    requires { LogWith 3 chunks width (words log.old) (length log.old) }
    ensures { words log.new ≡ swept chunks width (words log.old) }
{
    let n = words::read(log, 0) as usize;
    rank(log, chunks, width, n);
    renumber(log, chunks, width, n);
    let m = pack(log, chunks, width, n);
    words::write(log, 0, m as u64);
}

// The chunk with the key, where there is one, gets a mark, and so stays at the next sweep.
pub fn mark_key(log: &mut [u8], chunks: usize, width: usize, k: ChunkKey)
    requires { LogWith 3 chunks width (words log.old) (length log.old) }
    ensures { words log.new ≡ with_marks chunks width (λ x. eqb k.0 x.key) (words log.old) }
{
    if let Some(p) = chunk_log::find(log, chunks, width, k) {
        let s = words::read(log, 2 + 2 * p);
        words::write(log, 2 + 2 * p, s % 2 + 2);
    }
}

// The saved chunks get marks.
fn mark_saved(log: &mut [u8], chunks: usize, width: usize)
    requires { IsLog chunks width (words log.old) (length log.old) }
    ensures { words log.new ≡ with_marks chunks width (λ x. eqb x.saved 1) (words log.old) }
{
    let n = words::read(log, 0) as usize;
    for i in 0..n {
        let s = words::read(log, 2 + 2 * i);
        words::write(log, 2 + 2 * i, 3 * s);
    }
}

// A crash: the chunks that are not saved go.
pub fn keep_saved(log: &mut [u8], chunks: usize, width: usize)
    requires { IsLog chunks width (words log.old) (length log.old) }
    ensures { words log.new ≡ change (chunks_codec chunks width) only_saved (words log.old) }
{
    mark_saved(log, chunks, width);
    keep_marked(log, chunks, width);
}
