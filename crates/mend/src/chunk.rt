// A chunk on a place's part, which is all of the store that these functions get.
ghost use Rattle.std.specs.Prelude.{◌≡◌, true, ◌<◌, length, get_or};
ghost use Rattle.lists.specs.Runs.{run};
ghost use Rattle.words.specs.Words.{words};
ghost use Rattle.rules.specs.Chunks.{new_chunk, append, save_key};
ghost use Rattle.layout.specs.Layout.{log_words, log_at};
ghost use Rattle.lent.specs.Places.{PlaceLog};
ghost use Rattle.mend.specs.Fit.{change_log};

use layout::sizes;
use rules::numbers::ChunkKey;
use rules::settings::Settings;

// The chunk that is held becomes saved.
pub fn save_chunk(part: &mut [u8], settings: Settings, key: ChunkKey)
    requires { PlaceLog settings (words part.old) (length part.old) }
    ensures { words part.new ≡ change_log settings (λ l. save_key l key.0) (words part.old) }
{
    let a = 8 * sizes::log_at(settings);
    let e = a + 8 * sizes::log_words(settings);
    chunk_log::save_key(
        &mut part[a..e],
        settings.chunks,
        settings.size / sizes::WORD_BYTES,
        key,
    );
}

// The chunk comes in saved, after the others.
pub fn append_saved(part: &mut [u8], settings: Settings, key: ChunkKey, bytes: &[u8])
    requires place_log { PlaceLog settings (words part.old) (length part.old) }
    requires part_bound { (get_or (run (log_at settings) (log_words settings) (words part.old)) 0 0 < settings.chunks) × (length bytes.now ≡ settings.size) }
    ensures { words part.new
        ≡ change_log settings (λ l. append l (new_chunk key.0 true bytes.now)) (words part.old) }
{
    let a = 8 * sizes::log_at(settings);
    let e = a + 8 * sizes::log_words(settings);
    chunk_log::append(
        &mut part[a..e],
        settings.chunks,
        settings.size / sizes::WORD_BYTES,
        key,
        true,
        bytes,
    );
}
