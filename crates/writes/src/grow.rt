// The log of a place's brick gets a chunk.
ghost use Rattle.std.specs.Prelude.{◌≡◌, length};
ghost use Rattle.lists.specs.Runs.{on_run};
ghost use Rattle.words.specs.Words.{words};
ghost use Rattle.codec.specs.Codec.{change};
ghost use Rattle.layout.specs.Layout.{log_codec, log_words, log_at};
ghost use Rattle.writes.specs.Logs.{with_chunk, AppendFits};

use layout::sizes;
use rules::numbers::ChunkKey;
use rules::settings::Settings;

// An unsaved one, at the end.
pub fn append(part: &mut [u8], settings: Settings, key: ChunkKey, bytes: &[u8])
    requires { AppendFits settings (words part.old) (length part.old) bytes.now }
    ensures { words part.new
        ≡ on_run (log_at settings) (log_words settings) (change (log_codec settings) (with_chunk key.0 bytes.now)) (words part.old) }
{
    let at = 8 * sizes::log_at(settings);
    let end = part.len();
    chunk_log::append(
        &mut part[at..end],
        settings.chunks,
        settings.size / sizes::WORD_BYTES,
        key,
        false,
        bytes,
    );
}
