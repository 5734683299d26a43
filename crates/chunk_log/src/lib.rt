// A brick's chunk log in a lent slice, in 64-bit words: a count; `chunks` rows (key, saved) in arrival order; `chunks` positions, of which those in use
// list the rows by ascending key; `chunks` cells of `width` words, cell i of row i. What lies past the count keeps its words.
#![tactic(auto)]

ghost use Rattle.std.specs.Prelude.{◌≡◌, [], ◌+◌, ◌*◌, ◌<◌, ◌≤◌, length, get_or, IfSome};
ghost use Rattle.words.specs.Words.{words};
ghost use Rattle.rules.specs.Chunks.{new_chunk, append, held, saved_in, save_all, save_key};
ghost use Rattle.codec.specs.Codec.{change};
ghost use Rattle.chunk_log.specs.Log.{chunks_codec, log_size, chunk_at, position_at, key_by, Ordered, LogWith, IsLog, KeyBound};
ghost use Rattle.chunk_log.specs.Steps.{with_next, entered};
ghost use Rattle.chunk_log.specs.Answers.{FoundIn};

use rules::numbers::ChunkKey;

// ---- look-up

// The key of the row at index j of the order.
fn key_by(log: &[u8], chunks: usize, j: usize) -> u64
    requires { (j < chunks) × (position_at chunks (words log.now) j < chunks) × (8 * (1 + 3 * chunks) ≤ length log.now) }
    ensures { result ≡ key_by chunks (words log.now) j }
{
    let p = words::read(log, 1 + 2 * chunks + j) as usize;
    words::read(log, 1 + 2 * p)
}

// The first index among the first n of the order whose key is not below k.
fn lower_bound(log: &[u8], chunks: usize, n: usize, k: u64) -> usize
    requires n_le_chunks { (n ≤ chunks) × (8 * (1 + 3 * chunks) ≤ length log.now) }
    requires ordered { Ordered chunks n (words log.now) }
    ensures { KeyBound chunks n (words log.now) k result }
{
    words::lower_bound(n, k, |j| key_by(log, chunks, j))
}

// The chunk that has a key, by its index in the log. Marks in the saved words do no harm.
pub fn find(log: &[u8], chunks: usize, width: usize, k: ChunkKey) -> Option<usize>
    requires { LogWith 3 chunks width (words log.now) (length log.now) }
    ensures found { FoundIn ((chunks_codec chunks width).dec (words log.now)) k.0 result }
    ensures in_use { IfSome result (λ p. p < get_or (words log.now) 0 0) }
{
    let n = words::read(log, 0) as usize;
    let p = lower_bound(log, chunks, n, k.0);
    if p < n && key_by(log, chunks, p) == k.0 {
        return Some(words::read(log, 1 + 2 * chunks + p) as usize);
    }
    None
}

// Is there a chunk with the key?
pub fn holds(log: &[u8], chunks: usize, width: usize, k: ChunkKey) -> bool
    requires { LogWith 3 chunks width (words log.now) (length log.now) }
    ensures { result ≡ held ((chunks_codec chunks width).dec (words log.now)) k.0 }
{
    find(log, chunks, width, k).is_some()
}

// Is there a saved chunk with the key?
pub fn holds_saved(log: &[u8], chunks: usize, width: usize, k: ChunkKey) -> bool
    requires { IsLog chunks width (words log.now) (length log.now) }
    ensures { result ≡ saved_in ((chunks_codec chunks width).dec (words log.now)) k.0 }
{
    find(log, chunks, width, k).is_some_and(|p| words::read(log, 2 + 2 * p) == 1)
}

// The bytes of the chunk at an index: a part of the log.
pub fn bytes_at<'a>(log: &'a [u8], chunks: usize, width: usize, p: usize) -> &'a [u8]
    requires log_with { LogWith 3 chunks width (words log.now) (length log.now) }
    requires p_bound { p < get_or (words log.now) 0 0 }
    ensures { (result.now ≡ (chunk_at ((chunks_codec chunks width).dec (words log.now)) p).bytes) × (length result.now ≡ 8 * width) }
{
    let at = words::offset(p, width, chunks);
    let start = 8 * (1 + 3 * chunks + at);
    &log[start..start + 8 * width]
}

// ---- changes

// No chunks.
pub fn clear(log: &mut [u8], chunks: usize, width: usize)
    requires { length log.old ≡ 8 * log_size chunks width }
    ensures { words log.new ≡ change (chunks_codec chunks width) (λ l. []) (words log.old) }
{
    words::write(log, 0, 0);
}

// Row n becomes (key, saved), its position goes to index p of the order, and it counts.
fn enter(log: &mut [u8], chunks: usize, n: usize, p: usize, key: u64, saved: u64)
    requires { (p ≤ n) × (n < chunks) × (8 * (1 + 3 * chunks) ≤ length log.old) }
    ensures { words log.new ≡ entered chunks n p key saved (words log.old) }
{
    moves::move_up(log, 1 + 2 * chunks + p, 1 + 2 * chunks + (p + 1), n - p);
    words::write(log, 1 + 2 * chunks + p, n as u64);
    words::write(log, 1 + 2 * n, key);
    words::write(log, 2 + 2 * n, saved);
    words::write(log, 0, (n + 1) as u64);
}

// A chunk at the end whose bytes stand in its cell already, the one after the last.
pub fn append_in_place(log: &mut [u8], chunks: usize, width: usize, key: ChunkKey, saved: bool)
    requires { IsLog chunks width (words log.old) (length log.old) × (get_or (words log.old) 0 0 < chunks) }
    ensures { words log.new ≡ with_next chunks width key.0 saved (words log.old) }
{
    let n = words::read(log, 0) as usize;
    let p = lower_bound(log, chunks, n, key.0);
    enter(log, chunks, n, p, key.0, saved as u64);
}

// A chunk at the end.
pub fn append(log: &mut [u8], chunks: usize, width: usize, key: ChunkKey, saved: bool, bytes: &[u8])
    requires log { IsLog chunks width (words log.old) (length log.old) }
    requires log_bound { (get_or (words log.old) 0 0 < chunks) × (length bytes.now ≡ 8 * width) }
    ensures { words log.new
        ≡ change (chunks_codec chunks width) (λ l. append l (new_chunk key.0 saved bytes.now)) (words log.old) }
{
    let n = words::read(log, 0) as usize;
    let at = words::offset(n, width, chunks);
    let start = 8 * (1 + 3 * chunks + at);
    moves::copy_bytes(&mut log[start..start + 8 * width], bytes);
    append_in_place(log, chunks, width, key, saved);
}

// The chunk with the key, where there is one, becomes saved.
pub fn save_key(log: &mut [u8], chunks: usize, width: usize, k: ChunkKey)
    requires { IsLog chunks width (words log.old) (length log.old) }
    ensures { words log.new ≡ change (chunks_codec chunks width) (λ l. save_key l k.0) (words log.old) }
{
    if let Some(p) = find(log, chunks, width, k) {
        words::write(log, 2 + 2 * p, 1);
    }
}

// All chunks become saved.
pub fn save_all(log: &mut [u8], chunks: usize, width: usize)
    requires { IsLog chunks width (words log.old) (length log.old) }
    ensures { words log.new ≡ change (chunks_codec chunks width) save_all (words log.old) }
{
    let n = words::read(log, 0) as usize;
    for i in 0..n {
        words::write(log, 2 + 2 * i, 1);
    }
}
