// The effect of mend, key by key: a place's log gets chunks saved that up members hold. What is written is the place's part alone; the bytes of a chunk
// that comes from another place go through an area of a block's size, which is lent and left with any bytes.
ghost use Rattle.std.specs.Prelude.{◌≡◌, ℕ, ◌<◌, length, Some};
ghost use Rattle.words.specs.Words.{words};
ghost use Rattle.rules.specs.Chunks.{save_key};
ghost use Rattle.rules.specs.Upkeep.{mend_effect};
ghost use Rattle.layout.specs.Store.{decode, render};
ghost use Rattle.mend.specs.Fit.{with_log_at, log_of, UpAt, Mends, key_mended, MendsTable, table_mended, Mended, MendsAll};
ghost use Rattle.mend.specs.Acts.{Lacking};

use crate::act::Act;
use crate::{act, chunk};
use holders::Location;
use layout::sizes;
use lent::place;
use lent::place::Span;
use rules::numbers::ChunkKey;
use rules::settings::Settings;

// ---- one key

// The chunk that the brick at the place holds becomes saved.
fn save_at(store: &mut [u8], settings: Settings, place: usize, key: ChunkKey)
    requires { UpAt settings store.old place }
    ensures { words store.new
        ≡ with_log_at settings place (save_key (log_of place (words store.old)) key.0) (words store.old) }
{
    let Span { from, to } = place::span_of(settings, place);
    chunk::save_chunk(&mut store[from..to], settings, key);
}

// The chunk that it lacks comes from where it lies.
fn bring(
    store: &mut [u8],
    settings: Settings,
    place: usize,
    key: ChunkKey,
    source: Location,
    area: &mut [u8],
)
    requires mends { Mends settings store.old place key.0 × (length area.old ≡ settings.size) }
    requires lacking { Lacking settings (decode (words store.old)) ((decode (words store.old)).ids place) key.0 source.place source.row }
    ensures { words store.new
        ≡ with_log_at settings place (key_mended place key.0 (words store.old)) (words store.old) }
{
    let Location { place: home, row } = source;
    moves::copy_bytes(area, holders::chunk(store, settings, home, row));
    let Span { from, to } = place::span_of(settings, place);
    chunk::append_saved(&mut store[from..to], settings, key, area);
}

// The place does for the key what it is to do.
fn mend_key(store: &mut [u8], settings: Settings, place: usize, key: ChunkKey, area: &mut [u8])
    requires { Mends settings store.old place key.0 × (length area.old ≡ settings.size) }
    ensures { words store.new
        ≡ with_log_at settings place (key_mended place key.0 (words store.old)) (words store.old) }
{
    match act::for_key(store, settings, place, key) {
        Act::Nothing => {}
        Act::Save => save_at(store, settings, place, key),
        Act::Bring(from) => bring(store, settings, place, key, from, area),
    }
}

// ---- the keys of a table, and of all

// The place gets the chunks saved that the entries of the table at word `from` name.
fn mend_table(store: &mut [u8], settings: Settings, place: usize, from: usize, area: &mut [u8])
    requires { MendsTable settings store.old place from × (length area.old ≡ settings.size) }
    ensures { words store.new
        ≡ with_log_at settings place (table_mended settings place from (words store.old)) (words store.old) }
{
    let n = words::read(store, from) as usize;
    for i in 0..n {
        let key = words::read(store, from + (2 + i * sizes::ENTRY_WORDS));
        mend_key(store, settings, place, ChunkKey(key), area);
    }
}

// The same, and nothing where there is no table.
fn mend_named(
    store: &mut [u8],
    settings: Settings,
    place: usize,
    from: Option<usize>,
    area: &mut [u8],
)
    requires { ((at : ℕ) → from ≡ Some at → MendsTable settings store.old place at) × (length area.old ≡ settings.size) }
    ensures { Mended settings place from (words store.old) (words store.new) }
{
    if let Some(at) = from {
        mend_table(store, settings, place, at, area);
    }
}

// The place gets every chunk saved that is named, bucket by bucket.
pub fn mend_all(
    store: &mut [u8],
    settings: Settings,
    place: usize,
    tables: &[Option<usize>],
    area: &mut [u8],
)
    requires { MendsAll settings store.old place tables.now × (length area.old ≡ settings.size) }
    ensures { words store.new
        ≡ render (mend_effect (decode (words store.old)) ((decode (words store.old)).ids place)) (words store.old) }
{
    for from in tables {
        mend_named(store, settings, place, *from, area);
    }
}
