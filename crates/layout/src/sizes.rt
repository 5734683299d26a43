// Sizes and offsets of the parts, in words.
ghost use Rattle.std.specs.Prelude.{◌≡◌, ◌+◌, ◌≤◌, ◌<◌};
ghost use Rattle.rules.specs.Limits.{buckets, proxies};
ghost use Rattle.rules.specs.Limits.{Limits};
ghost use Rattle.layout.specs.Layout.{agreed_words, proxy_words, copy_words, copies_words, log_words, log_at, place_words};
ghost use Rattle.layout.specs.Layout.{agreed_at, proxies_at, proxy_at, bag_at, places_at, place_at, store_words};
ghost use Rattle.layout.specs.Store.{store_bytes};

use rules::constants;
use rules::settings::Settings;

pub const WORD_BYTES: usize = 8;

// words of a row: block, key; view, bucket, order number, block, key
pub const ENTRY_WORDS: usize = 2;

pub const RELAY_WORDS: usize = 5;

// the bytes "DISK0001" as a word: a store of another layout begins otherwise
// stays: a constant's value may not call a function, so not `u64::from_le_bytes(*b"DISK0001")`
pub const VERSION: u64 = 0x3130_3030_4b53_4944;

// the header
pub const VERSION_AT: usize = 0;

pub const PLACES_COUNT_AT: usize = VERSION_AT + 1;

pub const BLOCK_SIZE_AT: usize = PLACES_COUNT_AT + 1;

pub const MAX_ENTRIES_AT: usize = BLOCK_SIZE_AT + 1;

pub const MAX_CHUNKS_AT: usize = MAX_ENTRIES_AT + 1;

pub const VIEW_AT: usize = MAX_CHUNKS_AT + 1;

pub const GIVEN_AT: usize = VIEW_AT + 1;

pub const STARTED_AT: usize = GIVEN_AT + 1;

pub const HEAD_WORDS: usize = STARTED_AT + 1;

// a bucket's record
pub const PRIMARY_AT: usize = 0;

pub const BACKUP_AT: usize = PRIMARY_AT + 1;

pub const LAST_PRIMARY_AT: usize = BACKUP_AT + 1;

pub const LAST_BACKUP_AT: usize = LAST_PRIMARY_AT + 1;

pub const READY_AT: usize = LAST_BACKUP_AT + 1;

pub const FETCHED_AT: usize = READY_AT + 1;

pub const LAST_SENT_AT: usize = FETCHED_AT + 1;

pub const TAKEN_AT: usize = LAST_SENT_AT + 1;

pub const AGREED_WORDS: usize = TAKEN_AT + 1;

// a proxy: the known view, items
pub const KNOWN_AT: usize = 0;

pub const ITEMS_AT: usize = KNOWN_AT + 1;

pub const ITEMS_WORDS: usize = 1 + constants::MAX_ITEMS * ENTRY_WORDS;

pub const PROXY_WORDS: usize = ITEMS_AT + ITEMS_WORDS;

pub const BAG_WORDS: usize = 1 + constants::MAX_RELAYS * RELAY_WORDS;

// a place: id, flags, numbers, the append buffer, the copies, the log
pub const ID_AT: usize = 0;

pub const UP_AT: usize = ID_AT + 1;

pub const MEMBER_AT: usize = UP_AT + 1;

pub const BEGAN_AT: usize = MEMBER_AT + 1;

pub const NEXT_AT: usize = BEGAN_AT + 1;

pub const CEILING_AT: usize = NEXT_AT + 1;

pub const BUFFER_AT: usize = CEILING_AT + 1;

pub const BUFFER_WORDS: usize = 1 + constants::MAX_WAITING * ENTRY_WORDS;

pub const COPIES_AT: usize = BUFFER_AT + BUFFER_WORDS;

// One copy of a bucket at a place, and both.
pub fn copy_words(settings: Settings) -> usize
    requires { Limits settings }
    ensures { result ≡ copy_words settings }
{
    1 + settings.entries * ENTRY_WORDS
}

pub fn copies_words(settings: Settings) -> usize
    requires { Limits settings }
    ensures { result ≡ copies_words settings }
{
    2 * copy_words(settings)
}

pub fn log_words(settings: Settings) -> usize
    requires { Limits settings }
    ensures { result ≡ log_words settings }
{
    1 + 3 * settings.chunks + settings.chunks * (settings.size / WORD_BYTES)
}

// Where the log lies in a place.
pub fn log_at(settings: Settings) -> usize
    requires { Limits settings }
    ensures { result ≡ log_at settings }
{
    COPIES_AT + settings.buckets() * copies_words(settings)
}

pub fn place_words(settings: Settings) -> usize
    requires { Limits settings }
    ensures { result ≡ place_words settings }
{
    log_at(settings) + log_words(settings)
}

// Where the proxies, the bag and the places lie in the store.
pub fn proxies_at(settings: Settings) -> usize
    ensures { result ≡ proxies_at settings }
{
    HEAD_WORDS + settings.buckets() * AGREED_WORDS
}

pub fn bag_at(settings: Settings) -> usize
    ensures { result ≡ bag_at settings }
{
    proxies_at(settings) + constants::PROXIES * PROXY_WORDS
}

pub fn places_at(settings: Settings) -> usize
    ensures { result ≡ places_at settings }
{
    bag_at(settings) + BAG_WORDS
}

// Where a bucket's record begins, and a proxy.
pub fn agreed_at(settings: Settings, bucket: usize) -> usize
    requires { bucket < buckets settings }
    ensures { (result ≡ agreed_at bucket) × (result + agreed_words ≤ proxies_at settings) }
{
    HEAD_WORDS + bucket * AGREED_WORDS
}

pub fn proxy_at(settings: Settings, proxy: usize) -> usize
    requires { proxy < proxies }
    ensures { (result ≡ proxy_at settings proxy) × (result + proxy_words ≤ bag_at settings) }
{
    proxies_at(settings) + proxy * PROXY_WORDS
}

// Where place p begins.
pub fn place_at(settings: Settings, p: usize) -> usize
    requires { Limits settings × (p < settings.places) }
    ensures { (result ≡ place_at settings p) × (result + place_words settings ≤ store_words settings) }
{
    places_at(settings) + words::offset(p, place_words(settings), settings.places)
}

pub fn store_words(settings: Settings) -> usize
    requires { Limits settings }
    ensures { result ≡ store_words settings }
{
    places_at(settings) + settings.places * place_words(settings)
}

// So many bytes are lent for a store.
pub fn store_bytes(settings: Settings) -> usize
    requires { Limits settings }
    ensures { result ≡ store_bytes settings }
{
    WORD_BYTES * store_words(settings)
}
