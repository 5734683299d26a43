// The copies of a place: where they lie in the store, and those in memory saved on disk or restored from it.
ghost use Rattle.std.specs.Prelude.{true, false, ◌≡◌, ◌+◌, ◌≤◌, ◌<◌, length};
ghost use Rattle.words.specs.Words.{words};
ghost use Rattle.rules.specs.Limits.{buckets};
ghost use Rattle.rules.specs.Limits.{Limits};
ghost use Rattle.codec.specs.Codec.{change};
ghost use Rattle.layout.specs.Layout.{copies_codec, all_copies_codec, copy_words, store_words, place_at, copies_at};
ghost use Rattle.lent.specs.Parts.{CopiesFit, AllCopiesFit, matched, all_matched};

use crate::place;
use layout::{lend, sizes};
use rules::settings::Settings;

// The word at which a place's copy of a bucket in memory begins.
pub fn memory_at(settings: Settings, place: usize, bucket: usize) -> usize
    requires { Limits settings × (place < settings.places) × (bucket < buckets settings) }
    ensures { (result ≡ place_at settings place + copies_at settings bucket) × (result + copy_words settings ≤ store_words settings) }
{
    sizes::place_at(settings, place) + place::memory_at(settings, bucket)
}

// The one on disk.
pub fn disk_at(settings: Settings, place: usize, bucket: usize) -> usize
    requires { Limits settings × (place < settings.places) × (bucket < buckets settings) }
    ensures { (result ≡ place_at settings place + (copies_at settings bucket + copy_words settings)) × (result + copy_words settings ≤ store_words settings) }
{
    sizes::place_at(settings, place) + place::disk_at(settings, bucket)
}

// A bucket's copy in memory goes to disk.
fn save(copies: &mut [u8], settings: Settings)
    requires { CopiesFit settings (words copies.old) (length copies.old) }
    ensures { words copies.new ≡ change (copies_codec settings) (matched true) (words copies.old) }
{
    entries::copy(copies, 0, sizes::copy_words(settings), settings.entries);
}

// Every bucket's.
pub fn save_all(copies: &mut [u8], settings: Settings)
    requires { AllCopiesFit settings (words copies.old) (length copies.old) }
    ensures { words copies.new ≡ change (all_copies_codec settings) (all_matched true) (words copies.old) }
{
    lend::each_part(
        copies,
        sizes::copies_words(settings),
        settings.buckets(),
        |_, part| save(part, settings),
    );
}

// A bucket's copy on disk comes back to memory.
fn restore(copies: &mut [u8], settings: Settings)
    requires { CopiesFit settings (words copies.old) (length copies.old) }
    ensures { words copies.new ≡ change (copies_codec settings) (matched false) (words copies.old) }
{
    entries::copy(copies, sizes::copy_words(settings), 0, settings.entries);
}

// Every bucket's.
pub fn restore_all(copies: &mut [u8], settings: Settings)
    requires { AllCopiesFit settings (words copies.old) (length copies.old) }
    ensures { words copies.new ≡ change (all_copies_codec settings) (all_matched false) (words copies.old) }
{
    lend::each_part(
        copies,
        sizes::copies_words(settings),
        settings.buckets(),
        |_, part| restore(part, settings),
    );
}
