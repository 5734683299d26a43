// savemap: a brick's copies in memory go to disk.
ghost use Rattle.std.specs.Prelude.{◌≡◌, length};
ghost use Rattle.words.specs.Words.{words};
ghost use Rattle.rules.specs.Event.{Event};
ghost use Rattle.codec.specs.Codec.{change};
ghost use Rattle.layout.specs.Layout.{place_codec};
ghost use Rattle.lent.specs.Performs.{Performs};
ghost use Rattle.lent.specs.Places.{HoldsBrick};
ghost use Rattle.lent.specs.Stores.{StoreOf};
ghost use Rattle.maps.specs.Saved.{saved};

use layout::sizes;
use lent::place::Span;
use lent::{Answer, copies, place};
use rules::settings::Settings;

fn save_place(part: &mut [u8], settings: Settings)
    requires { HoldsBrick settings (words part.old) (length part.old) }
    ensures { words part.new ≡ change (place_codec settings) saved (words part.old) }
{
    let end = 8 * sizes::log_at(settings);
    copies::save_all(&mut part[8 * sizes::COPIES_AT..end], settings);
}

pub fn savemap(store: &mut [u8], settings: Settings, place: u64) -> Answer
    requires { StoreOf settings store.old }
    ensures { Performs (Event.savemap place) (words store.old) result (words store.new) }
{
    place::asks(store, settings, place)?;
    let Span { from, to } = place::span_of(settings, place as usize);
    save_place(&mut store[from..to], settings);
    Ok(0)
}
