// A bucket's copies in the store.
ghost use Rattle.std.specs.Prelude.{◌≡◌, length};
ghost use Rattle.words.specs.Words.{words};
ghost use Rattle.recovery.specs.Copies.{Replaces, replaced_words};

use rules::settings::Settings;

// The copy in memory at one place replaces those at another, on disk and in memory.
pub fn replace(store: &mut [u8], settings: Settings, bucket: usize, from: usize, to: usize)
    requires { Replaces settings bucket from to (words store.old) (length store.old) }
    ensures { words store.new ≡ replaced_words settings bucket from to (words store.old) }
{
    let source = lent::copies::memory_at(settings, from, bucket);
    let disk = lent::copies::disk_at(settings, to, bucket);
    let memory = lent::copies::memory_at(settings, to, bucket);
    entries::copy(store, source, disk, settings.entries);
    entries::copy(store, source, memory, settings.entries);
}
