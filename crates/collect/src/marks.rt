// Marks in a log that lies in a store, on the chunks that tables of entries name; and a sweep of the chunks without one.
ghost use Rattle.std.specs.Prelude.{◌≡◌, ℕ, eqb, length, Some};
ghost use Rattle.words.specs.Words.{words};
ghost use Rattle.rules.specs.Limits.{buckets};
ghost use Rattle.named.specs.Tables.{names_in, names_at};
ghost use Rattle.collect.specs.Marked.{marks, named_first, LogIn, TableIn, TablesIn, sweeps};

use layout::sizes;
use rules::numbers::ChunkKey;
use rules::settings::Settings;

// The chunk with the key, where there is one, gets a mark. The log lies at word `at`.
fn mark_key(store: &mut [u8], settings: Settings, at: usize, key: u64)
    requires { LogIn settings at (words store.old) (length store.old) }
    ensures { words store.new ≡ marks settings at (eqb key) (words store.old) }
{
    let a = 8 * at;
    let e = a + 8 * sizes::log_words(settings);
    sweep::mark_key(
        &mut store[a..e],
        settings.chunks,
        settings.size / sizes::WORD_BYTES,
        ChunkKey(key),
    );
}

// The chunks that the entries of the table at word `from` name get marks.
fn mark_table(store: &mut [u8], settings: Settings, at: usize, from: usize)
    requires log_in { LogIn settings at (words store.old) (length store.old) }
    requires table_in { TableIn settings at from (words store.old) (length store.old) }
    ensures { words store.new ≡ marks settings at (names_in (words store.old) from) (words store.old) }
{
    let n = words::read(store, from) as usize;
    for i in 0..n {
        let key = words::read(store, from + (2 + i * sizes::ENTRY_WORDS));
        mark_key(store, settings, at, key);
    }
}

// The same, and none where there is no table.
fn mark_named(store: &mut [u8], settings: Settings, at: usize, table: Option<usize>)
    requires log_in { LogIn settings at (words store.old) (length store.old) }
    requires table_in { (from : ℕ) → table ≡ Some from → TableIn settings at from (words store.old) (length store.old) }
    ensures { words store.new ≡ marks settings at (names_at (words store.old) table) (words store.old) }
{
    if let Some(from) = table {
        mark_table(store, settings, at, from);
    }
}

// The chunks that the entries of any of the buckets' tables name get marks.
pub fn mark_tables(store: &mut [u8], settings: Settings, at: usize, tables: &[Option<usize>])
    requires log_in { LogIn settings at (words store.old) (length store.old) }
    requires tables_in { TablesIn settings at tables.now (words store.old) (length store.old) }
    ensures { words store.new
        ≡ marks settings at (named_first (words store.old) tables.now (buckets settings)) (words store.old) }
{
    for table in tables {
        mark_named(store, settings, at, *table);
    }
}

// The chunks without a mark go, and the marks of the others.
pub fn sweep_log(store: &mut [u8], settings: Settings, at: usize)
    requires { LogIn settings at (words store.old) (length store.old) }
    ensures { words store.new ≡ sweeps settings at (words store.old) }
{
    let a = 8 * at;
    let e = a + 8 * sizes::log_words(settings);
    sweep::keep_marked(
        &mut store[a..e],
        settings.chunks,
        settings.size / sizes::WORD_BYTES,
    );
}
