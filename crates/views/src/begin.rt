// The effect of the event view.
ghost use Rattle.std.specs.Prelude.{◌≡◌, ◌*◌, ◌<◌, length};
ghost use Rattle.words.specs.Words.{words};
ghost use Rattle.rules.specs.Limits.{buckets, max_view_or_order};
ghost use Rattle.rules.specs.Views.{view_pairs, view_effect};
ghost use Rattle.layout.specs.Store.{decode, render};
ghost use Rattle.lent.specs.Stores.{StoreOf};
ghost use Rattle.views.specs.Begin.{Begins};

use crate::{assigned, members, place, record};
use layout::sizes;
use rules::settings::Settings;

// A view begins with so many bricks, and with these pairs.
fn write(store: &mut [u8], settings: Settings, started: u64, pairs: &[u64])
    requires { StoreOf settings store.old × Begins settings (decode (words store.old)) started × (pairs.now ≡ view_pairs (decode (words store.old))) }
    ensures { words store.new ≡ render (view_effect (decode (words store.old))) (words store.old) }
{
    let proxies_at = sizes::proxies_at(settings);
    let places_at = sizes::places_at(settings);
    let end = store.len();
    let view = lent::store::view(store, settings);
    words::write(store, sizes::VIEW_AT, view + 1);
    words::write(store, sizes::STARTED_AT, started);
    record::renew_all(
        &mut store[8 * sizes::HEAD_WORDS..8 * proxies_at],
        settings,
        pairs,
    );
    place::begin_all(&mut store[8 * places_at..end], settings);
}

// The same, with room for the pairs.
fn begin_in(store: &mut [u8], settings: Settings, started: u64, pairs: &mut [u64])
    requires { StoreOf settings store.old × Begins settings (decode (words store.old)) started × (length pairs.old ≡ 2 * buckets settings) }
    ensures { words store.new ≡ render (view_effect (decode (words store.old))) (words store.old) }
{
    assigned::view_pairs(store, settings, pairs);
    write(store, settings, started, pairs);
}

// A view begins, with the bricks that are up.
pub fn begin(store: &mut [u8], settings: Settings)
    requires { StoreOf settings store.old × ((decode (words store.old)).view < max_view_or_order) }
    ensures { words store.new ≡ render (view_effect (decode (words store.old))) (words store.old) }
{
    let started = members::count_up(store, settings) as u64;
    let used = 2 * settings.buckets();
    let mut room = [0; pairing::MAX_ASSIGNED];
    begin_in(store, settings, started, &mut room[0..used]);
}
