// The bucket copies of a place.
ghost use Rattle.std.specs.Prelude.{◌≡◌, true, length};
ghost use Rattle.std.specs.Option.{MatchOption};
ghost use Rattle.lists.specs.Tests.{all_below};
ghost use Rattle.words.specs.Words.{words};
ghost use Rattle.rules.specs.Limits.{buckets};
ghost use Rattle.rules.specs.Sound.{sound_table, in_bucket, same_entries, sound_copies};
ghost use Rattle.tables.specs.Tables.{same_at, IsTable};
ghost use Rattle.entries.specs.Entries.{entry_words};
ghost use Rattle.layout.specs.Layout.{entries_codec, copy_codec, copies_codec};
ghost use Rattle.row_checks.specs.Rows.{key_below};
ghost use Rattle.part_checks.specs.Copies.{copies_sound, Earlier, Known};
ghost use Rattle.part_checks.specs.Copies.{AlikeFit, EarlierFit, ComparedFit, MemoryFit, CopiesFit, AllCopiesFit};

use layout::sizes;
use row_checks::rows;
use row_checks::rows::Whose;
use rules::settings::Settings;

// What the comparison of a copy in memory tells: a place below has the same one, and the disk has.
#[derive(Clone, Copy)]
struct Alike {
    known: bool,
    saved: bool,
}

// Are the n words after the first of one table those of a second, and those of a third? Each word of the first is read once for both. All are looked at: the
// compiler compares several at a time in a loop with no other way out.
fn compare_words(one: &[u8], second: &[u8], third: &[u8], n: usize) -> Alike
    requires { AlikeFit (length one.now) (length second.now) (length third.now) n }
    ensures known_value { result.known ≡ all_below n (same_at (words one.now) (words second.now)) }
    ensures saved_value { result.saved ≡ all_below n (same_at (words one.now) (words third.now)) }
{
    let mut other = 0;
    let mut unsaved = 0;
    for i in 0..n {
        let word = words::read(one, 1 + i);
        other |= word ^ words::read(second, 1 + i);
        unsaved |= word ^ words::read(third, 1 + i);
    }
    Alike {
        known: other == 0,
        saved: unsaved == 0,
    }
}

// Has one table the same entries as a second, and as a third?
fn same_three(one: &[u8], second: &[u8], third: &[u8], most: usize) -> Alike
    requires table { IsTable entry_words most (words one.now) (length one.now) }
    requires table_2 { IsTable entry_words most (words second.now) (length second.now) }
    requires table_3 { IsTable entry_words most (words third.now) (length third.now) }
    ensures known_value { result.known ≡ same_entries ((entries_codec most).dec (words one.now)) ((entries_codec most).dec (words second.now)) }
    ensures saved_value { result.saved ≡ same_entries ((entries_codec most).dec (words one.now)) ((entries_codec most).dec (words third.now)) }
{
    let n = words::read(one, 0);
    let second_rows = words::read(second, 0);
    let third_rows = words::read(third, 0);
    let same = compare_words(one, second, third, n as usize * sizes::ENTRY_WORDS);
    Alike {
        known: (n == second_rows) & same.known,
        saved: (n == third_rows) & same.saved,
    }
}

// The last place below p that holds a brick and has n rows in the table at this word of it. An empty table is sooner tested than sought.
fn earlier(settings: Settings, store: &[u8], p: usize, from: usize, n: u64) -> Option<usize>
    requires { EarlierFit settings (length store.now) p from }
    ensures { MatchOption result (Unit {0}) (Earlier settings (words store.now) p from n) }
{
    if n == 0 {
        return None;
    }
    for q in (0..p).rev() {
        let at = sizes::place_at(settings, q);
        let id = words::read(store, at);
        let count = words::read(store, at + from);
        if (0 < id) & (count == n) {
            return Some(q);
        }
    }
    None
}

// Has a place below p the same copy of the bucket in memory, which passed already, and has the disk the same?
fn compared(
    settings: Settings,
    bucket: u64,
    store: &[u8],
    p: usize,
    memory: &[u8],
    disk: &[u8],
) -> Alike
    requires { ComparedFit settings bucket (length store.now) p memory.now disk.now }
    ensures known { result.known ≡ true → Known settings bucket (words store.now) p ((copy_codec settings).dec (words memory.now)) }
    ensures saved_value { result.saved ≡ same_entries ((copy_codec settings).dec (words memory.now)) ((copy_codec settings).dec (words disk.now)) }
{
    let size = sizes::copies_words(settings);
    let from = sizes::COPIES_AT + words::offset(bucket as usize, size, settings.buckets());
    let Some(q) = earlier(settings, store, p, from, words::read(memory, 0)) else {
        return Alike {
            known: false,
            saved: entries::same(memory, disk, settings.entries),
        };
    };
    let a = 8 * (sizes::place_at(settings, q) + from);
    let e = a + 8 * sizes::copy_words(settings);
    same_three(memory, &store[a..e], disk, settings.entries)
}

// The copy in memory, where it is known whether it passed already.
fn memory_good(settings: Settings, bounds: &[u64], bucket: u64, known: bool, memory: &[u8]) -> bool
    requires { MemoryFit settings bounds.now bucket known memory.now }
    ensures { result ≡ sound_table (key_below bounds.now) (in_bucket settings bucket) settings.entries
        ((copy_codec settings).dec (words memory.now)) }
{
    let whose = Whose::Bucket(bucket);
    known || rows::table_good(settings, bounds, whose, memory, settings.entries)
}

// The copies of one bucket, in memory and on disk. They nearly always have the same entries, and those of the place below, and then the test of one is the
// test of all.
fn copies_good(
    settings: Settings,
    bounds: &[u64],
    bucket: u64,
    up: bool,
    store: &[u8],
    p: usize,
    copies: &[u8],
) -> bool
    requires { CopiesFit settings bounds.now bucket store.now p (length copies.now) }
    ensures { result ≡ sound_copies (key_below bounds.now) settings up bucket ((copies_codec settings).dec (words copies.now)).memory
        ((copies_codec settings).dec (words copies.now)).disk }
{
    let half = 8 * sizes::copy_words(settings);
    let memory = &copies[0..half];
    let disk = &copies[half..half + half];
    if (settings.entries as u64) < words::read(memory, 0) {
        return false;
    }
    if (settings.entries as u64) < words::read(disk, 0) {
        return false;
    }
    let found = compared(settings, bucket, store, p, memory, disk);
    if !memory_good(settings, bounds, bucket, found.known, memory) {
        return false;
    }
    let whose = Whose::Bucket(bucket);
    found.saved || (up && rows::table_good(settings, bounds, whose, disk, settings.entries))
}

// The copies of all buckets at place p; the places below it passed.
pub fn all_copies_good(
    settings: Settings,
    bounds: &[u64],
    up: bool,
    store: &[u8],
    p: usize,
    copies: &[u8],
) -> bool
    requires { AllCopiesFit settings bounds.now store.now p (length copies.now) }
    ensures { result ≡ all_below (buckets settings) (copies_sound settings (key_below bounds.now) up (words copies.now)) }
{
    let size = sizes::copies_words(settings);
    let count = settings.buckets();
    for g in 0..count {
        let a = 8 * words::offset(g, size, count);
        let e = a + 8 * size;
        if !copies_good(settings, bounds, g as u64, up, store, p, &copies[a..e]) {
            return false;
        }
    }
    true
}
