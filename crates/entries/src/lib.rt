// Entries (block, key) in a lent slice, in 64-bit words: a count, then at most `most` rows. Bucket copies and items are sorted by block; an append buffer
// is in arrival order. Rows past the count keep what they hold.

#![tactic(auto)]

ghost use Rattle.std.specs.Prelude.{◌≡◌, true, [], ◌∷◌, ◌++◌, ◌+◌, ◌*◌, ◌<◌, length, get_or};
ghost use Rattle.words.specs.Words.{words};
ghost use Rattle.rules.specs.Entries.{entry, key_for, has, insert, remove, takes, insert_if_room};
ghost use Rattle.rules.specs.Sound.{same_entries};
ghost use Rattle.tables.specs.Tables.{TwoTables, IsTable, Sorted};
ghost use Rattle.tables.specs.Spots.{SpotOf};
ghost use Rattle.codec.specs.Codec.{change};
ghost use Rattle.layout.specs.Layout.{entries_codec};
ghost use Rattle.entries.specs.Entries.{entry_words, entries_words, copied_entries, entry_at};

use layout::sizes::ENTRY_WORDS;
use rules::numbers::{BlockNumber, ChunkKey};

// where a row has its key
const KEY: usize = 1;

// ---- look-up

// The block and the key of entry i.
pub fn block_at(t: &[u8], most: usize, i: usize) -> BlockNumber
    requires table { IsTable entry_words most (words t.now) (length t.now) }
    requires i_bound { i < get_or (words t.now) 0 0 }
    ensures { result.0 ≡ (entry_at ((entries_codec most).dec (words t.now)) i).block }
{
    BlockNumber(words::read(t, 1 + i * ENTRY_WORDS))
}

pub fn key_at(t: &[u8], most: usize, i: usize) -> ChunkKey
    requires table { IsTable entry_words most (words t.now) (length t.now) }
    requires i_bound { i < get_or (words t.now) 0 0 }
    ensures { result.0 ≡ (entry_at ((entries_codec most).dec (words t.now)) i).key }
{
    ChunkKey(words::read(t, 2 + i * ENTRY_WORDS))
}

// The key at the index that a look-up found; 0 means no mapping.
fn key_of(t: &[u8], most: usize, b: BlockNumber, spot: Result<usize, usize>) -> ChunkKey
    requires { Sorted entry_words most (words t.now) (length t.now) × SpotOf entry_words (words t.now) b.0 spot }
    ensures { result.0 ≡ key_for ((entries_codec most).dec (words t.now)) b.0 }
{
    match spot {
        Ok(p) => key_at(t, most, p),
        Err(_) => ChunkKey(0),
    }
}

// The key of a block.
pub fn key_for(t: &[u8], most: usize, b: BlockNumber) -> ChunkKey
    requires { Sorted entry_words most (words t.now) (length t.now) }
    ensures { result.0 ≡ key_for ((entries_codec most).dec (words t.now)) b.0 }
{
    key_of(t, most, b, tables::find(t, ENTRY_WORDS, most, b.0))
}

// The same, looked for at a guess first.
pub fn key_near(t: &[u8], most: usize, b: BlockNumber, guess: usize) -> ChunkKey
    requires { Sorted entry_words most (words t.now) (length t.now) }
    ensures { result.0 ≡ key_for ((entries_codec most).dec (words t.now)) b.0 }
{
    key_of(
        t,
        most,
        b,
        tables::find_near(t, ENTRY_WORDS, most, b.0, guess),
    )
}

// Where the block's entry is or would go: a guess for tables that are nearly the same.
pub fn index_of(t: &[u8], most: usize, b: BlockNumber) -> usize
    requires { Sorted entry_words most (words t.now) (length t.now) }
{
    tables::find(t, ENTRY_WORDS, most, b.0).unwrap_or_else(|p| p)
}

// Is there an entry for the block?
pub fn has(t: &[u8], most: usize, b: BlockNumber) -> bool
    requires { Sorted entry_words most (words t.now) (length t.now) }
    ensures { result ≡ has ((entries_codec most).dec (words t.now)) b.0 }
{
    tables::find(t, ENTRY_WORDS, most, b.0).is_ok()
}

// The same in a table that need not be sorted.
pub fn waits(t: &[u8], most: usize, b: BlockNumber) -> bool
    requires { IsTable entry_words most (words t.now) (length t.now) }
    ensures { result ≡ has ((entries_codec most).dec (words t.now)) b.0 }
{
    (0..words::read(t, 0) as usize).any(|i| block_at(t, most, i) == b)
}

// May the table take the block?
pub fn takes(t: &[u8], most: usize, b: BlockNumber) -> bool
    requires { Sorted entry_words most (words t.now) (length t.now) }
    ensures { result ≡ takes most ((entries_codec most).dec (words t.now)) b.0 }
{
    has(t, most, b) || (words::read(t, 0) as usize) < most
}

// ---- comparison

// Have two tables the same entries?
pub fn same(a: &[u8], b: &[u8], most: usize) -> bool
    requires table { IsTable entry_words most (words a.now) (length a.now) }
    requires table_2 { IsTable entry_words most (words b.now) (length b.now) }
    ensures { result ≡ same_entries ((entries_codec most).dec (words a.now)) ((entries_codec most).dec (words b.now)) }
{
    tables::same(a, b, ENTRY_WORDS, most)
}

// ---- changes of a sorted table

// The block gets the key, at its place in the order.
pub fn insert(t: &mut [u8], most: usize, b: BlockNumber, k: ChunkKey)
    requires sorted { Sorted entry_words most (words t.old) (length t.old) }
    requires b_value { takes most ((entries_codec most).dec (words t.old)) b.0 ≡ true }
    ensures { words t.new ≡ change (entries_codec most) (λ l. insert l b.0 k.0) (words t.old) }
{
    match tables::find(t, ENTRY_WORDS, most, b.0) {
        Ok(p) => tables::set_cell(t, ENTRY_WORDS, most, p, KEY, k.0),
        Err(p) => tables::insert_row(t, ENTRY_WORDS, most, p, &[b.0, k.0]),
    }
}

// The same, but a new block that finds the table full is dropped.
pub fn insert_or_drop(t: &mut [u8], most: usize, b: BlockNumber, k: ChunkKey)
    requires { Sorted entry_words most (words t.old) (length t.old) }
    ensures { words t.new ≡ change (entries_codec most) (λ l. insert_if_room most l (entry b.0 k.0)) (words t.old) }
{
    if takes(t, most, b) {
        insert(t, most, b, k);
    }
}

// The block's entry goes.
pub fn remove(t: &mut [u8], most: usize, b: BlockNumber)
    requires { Sorted entry_words most (words t.old) (length t.old) }
    ensures { words t.new ≡ change (entries_codec most) (λ l. remove l b.0) (words t.old) }
{
    if let Ok(p) = tables::find(t, ENTRY_WORDS, most, b.0) {
        tables::remove_row(t, ENTRY_WORDS, most, p);
    }
}

// ---- changes of any table

// No entries.
pub fn clear(t: &mut [u8], most: usize)
    requires { length t.old ≡ 8 * entries_words most }
    ensures { words t.new ≡ change (entries_codec most) (λ l. []) (words t.old) }
{
    words::write(t, 0, 0);
}

// An entry at the end.
pub fn append(t: &mut [u8], most: usize, b: BlockNumber, k: ChunkKey)
    requires table { IsTable entry_words most (words t.old) (length t.old) }
    requires t_bound { get_or (words t.old) 0 0 < most }
    ensures { words t.new ≡ change (entries_codec most) (λ l. l ++ entry b.0 k.0 ∷ []) (words t.old) }
{
    let n = words::read(t, 0) as usize;
    tables::insert_row(t, ENTRY_WORDS, most, n, &[b.0, k.0]);
}

// The table from word `from` on is copied to the one from word `to` on: its count and its entries.
pub fn copy(s: &mut [u8], from: usize, to: usize, most: usize)
    requires { TwoTables entry_words most from to (words s.old) (length s.old) }
    ensures { words s.new ≡ copied_entries most from to (words s.old) }
{
    tables::copy_table(s, from, to, ENTRY_WORDS, most);
}
