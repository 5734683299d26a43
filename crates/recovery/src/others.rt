// Up bricks outside a bucket's pair drop their copies of it.
ghost use Rattle.std.specs.Prelude.{◌≡◌, ◌<◌, length};
ghost use Rattle.words.specs.Words.{words};
ghost use Rattle.rules.specs.Limits.{buckets};
ghost use Rattle.codec.specs.Codec.{change};
ghost use Rattle.layout.specs.Layout.{place_codec, all_places_codec};
ghost use Rattle.lent.specs.Places.{CleanPlace, CleanPlaces};
ghost use Rattle.recovery.specs.Ready.{emptied, dropped_copies};

use layout::{lend, sizes};
use lent::place;
use rules::settings::Settings;

// A place with a brick: its two copies are emptied.
fn empty(part: &mut [u8], settings: Settings, bucket: usize)
    requires { CleanPlace settings (words part.old) (length part.old) × (bucket < buckets settings)
        × (0 < ((place_codec settings).dec (words part.old)).fst) }
    ensures { words part.new ≡ change (place_codec settings) (emptied bucket) (words part.old) }
{
    let size = 8 * sizes::copy_words(settings);
    let memory = 8 * place::memory_at(settings, bucket);
    let disk = 8 * place::disk_at(settings, bucket);
    entries::clear(&mut part[memory..memory + size], settings.entries);
    entries::clear(&mut part[disk..disk + size], settings.entries);
}

// A place.
fn drop_at(part: &mut [u8], settings: Settings, bucket: usize, primary: u64, backup: u64)
    requires { CleanPlace settings (words part.old) (length part.old) × (bucket < buckets settings) }
    ensures { words part.new ≡ change (place_codec settings) (dropped_copies bucket primary backup) (words part.old) }
{
    let id = records::place::id(part, settings);
    if id == 0 || id == primary || id == backup {
        return;
    }
    let status = records::place::read_status(part, settings);
    if status.up {
        empty(part, settings, bucket);
    }
}

// All places.
pub fn drop_all(part: &mut [u8], settings: Settings, bucket: usize, primary: u64, backup: u64)
    requires { CleanPlaces settings (words part.old) (length part.old) × (bucket < buckets settings) }
    ensures { words part.new
        ≡ change (all_places_codec settings) (λ places p. dropped_copies bucket primary backup (places p)) (words part.old) }
{
    lend::each_part(
        part,
        sizes::place_words(settings),
        settings.places,
        |_, place| drop_at(place, settings, bucket, primary, backup),
    );
}
