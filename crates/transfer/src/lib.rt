// A chunk goes from the log of the brick at one place to that of the brick at another: its bytes by one move within the store.

#![tactic(auto)]

ghost use Rattle.std.specs.Prelude.{◌≡◌, ◌+◌, ◌/◌, ◌<◌, ◌≤◌, length};
ghost use Rattle.lists.specs.Runs.{on_run};
ghost use Rattle.words.specs.Words.{words};
ghost use Rattle.rules.specs.Limits.{Limits};
ghost use Rattle.chunk_log.specs.Steps.{with_next};
ghost use Rattle.layout.specs.Layout.{log_words, store_words, log_at};
ghost use Rattle.layout.specs.Store.{decode, render};
ghost use Rattle.transfer.specs.Brings.{brought, Brings, cell_at, LogRoom};

use layout::sizes;
use lent::place;
use lent::place::Span;
use rules::numbers::ChunkKey;
use rules::settings::Settings;

// The word of the store at which the cell of a row of a place's log begins.
fn cell_at(settings: Settings, place: usize, row: usize) -> usize
    requires { Limits settings × (place < settings.places) × (row < settings.chunks) }
    ensures { (result ≡ cell_at settings place row) × (result + settings.size / 8 ≤ store_words settings) }
{
    let width = settings.size / sizes::WORD_BYTES;
    let cell = 1 + 3 * settings.chunks + words::offset(row, width, settings.chunks);
    sizes::place_at(settings, place) + sizes::log_at(settings) + cell
}

// The place's log gets the chunk whose bytes stand in its next cell.
fn enter(part: &mut [u8], settings: Settings, key: ChunkKey, saved: bool)
    requires { LogRoom settings (words part.old) (length part.old) }
    ensures { words part.new
        ≡ on_run (log_at settings) (log_words settings) (with_next settings.chunks (settings.size / 8) key.0 saved) (words part.old) }
{
    let at = 8 * sizes::log_at(settings);
    let end = part.len();
    chunk_log::append_in_place(
        &mut part[at..end],
        settings.chunks,
        settings.size / sizes::WORD_BYTES,
        key,
        saved,
    );
}

// The chunk in a row of one log goes to another. Its bytes go into a cell that is not in use; then the place's part alone is lent for the row.
pub fn bring(
    store: &mut [u8],
    settings: Settings,
    source: usize,
    row: usize,
    target: usize,
    key: ChunkKey,
    saved: bool,
)
    requires { Brings settings store.old source row target key.0 }
    ensures { words store.new
        ≡ render (brought (decode (words store.old)) source target key.0 saved) (words store.old) }
{
    let bytes = cell_at(settings, source, row);
    let count = place::chunk_count(store, settings, target) as usize;
    let cell = cell_at(settings, target, count);
    moves::move_words(store, bytes, cell, settings.size / sizes::WORD_BYTES);
    let Span { from, to } = place::span_of(settings, target);
    enter(&mut store[from..to], settings, key, saved);
}
