// savelog,place: all its chunks become saved.
ghost use Rattle.std.specs.Prelude.{◌≡◌, length};
ghost use Rattle.words.specs.Words.{words};
ghost use Rattle.rules.specs.Event.{Event};
ghost use Rattle.rules.specs.Chunks.{save_all};
ghost use Rattle.codec.specs.Codec.{change};
ghost use Rattle.layout.specs.Layout.{place_codec};
ghost use Rattle.lent.specs.Performs.{Performs};
ghost use Rattle.lent.specs.Places.{HoldsBrick, on_log};
ghost use Rattle.lent.specs.Stores.{StoreOf};

use layout::sizes;
use lent::place::Span;
use lent::{Answer, place};
use rules::settings::Settings;

fn save_place(part: &mut [u8], settings: Settings)
    requires { HoldsBrick settings (words part.old) (length part.old) }
    ensures { words part.new ≡ change (place_codec settings) (on_log save_all) (words part.old) }
{
    let at = 8 * sizes::log_at(settings);
    let end = part.len();
    chunk_log::save_all(
        &mut part[at..end],
        settings.chunks,
        settings.size / sizes::WORD_BYTES,
    );
}

pub fn savelog(store: &mut [u8], settings: Settings, place: u64) -> Answer
    requires { StoreOf settings store.old }
    ensures { Performs (Event.savelog place) (words store.old) result (words store.new) }
{
    place::asks(store, settings, place)?;
    let Span { from, to } = place::span_of(settings, place as usize);
    save_place(&mut store[from..to], settings);
    Ok(0)
}
