// What stands at a place.
ghost use Rattle.std.specs.Prelude.{◌≡◌, ◌+◌, ◌≤◌, ◌<◌, length};
ghost use Rattle.words.specs.Words.{words};
ghost use Rattle.rules.specs.Limits.{buckets};
ghost use Rattle.rules.specs.Derived.{up_member, is_up};
ghost use Rattle.rules.specs.Refusals.{code_of};
ghost use Rattle.rules.specs.Question.{first_no};
ghost use Rattle.rules.specs.Limits.{Limits};
ghost use Rattle.layout.specs.Layout.{copy_words, copies_words, place_words, copies_at, log_at};
ghost use Rattle.layout.specs.Store.{brick_in, decode};
ghost use Rattle.records.specs.Records.{status_of};
ghost use Rattle.lent.specs.Stores.{StoreOf};
ghost use Rattle.lent.specs.Asks.{place_asks};
ghost use Rattle.lent.specs.Places.{PlacePart, WordsOf, SpanOf};
ghost use Rattle.lent.specs.Parts.{CopyPart, BufferPart, LogPart};

use layout::sizes;
use records::status::Status;
use rules::refusal::Refusal;
use rules::settings::Settings;

// The bytes of a place.
pub fn part<'a>(store: &'a [u8], settings: Settings, place: usize) -> &'a [u8]
    requires { StoreOf settings store.now × (place < settings.places) }
    ensures { PlacePart settings place store.now result.now }
{
    let at = 8 * sizes::place_at(settings, place);
    let end = at + 8 * sizes::place_words(settings);
    &store[at..end]
}

// From which byte of the store to which they lie: for a step that is lent that part to write.
#[derive(Clone, Copy)]
pub struct Span {
    pub from: usize,
    pub to: usize,
}

pub fn span_of(settings: Settings, place: usize) -> Span
    requires { Limits settings × (place < settings.places) }
    ensures { SpanOf settings place result.from result.to }
{
    let from = 8 * sizes::place_at(settings, place);
    Span {
        from,
        to: from + 8 * sizes::place_words(settings),
    }
}

// The id of the brick at a place, 0 where it is empty.
pub fn id(store: &[u8], settings: Settings, place: usize) -> u64
    requires { StoreOf settings store.now × (place < settings.places) }
    ensures { result ≡ (decode (words store.now)).ids place }
{
    records::place::id(part(store, settings, place), settings)
}

// The status of the brick at a place.
pub fn status(store: &[u8], settings: Settings, place: usize) -> Status
    requires { StoreOf settings store.now × (place < settings.places) × (0 < (decode (words store.now)).ids place) }
    ensures { status_of result
        ≡ (brick_in (decode (words store.now)) ((decode (words store.now)).ids place)).status }
{
    records::place::read_status(part(store, settings, place), settings)
}

// Is the brick at a place up? An empty place has none.
pub fn is_up(store: &[u8], settings: Settings, place: usize) -> bool
    requires { StoreOf settings store.now × (place < settings.places) }
    ensures { result ≡ is_up (decode (words store.now)) place }
{
    id(store, settings, place) != 0 && status(store, settings, place).up
}

// Is it a member?
pub fn is_member(store: &[u8], settings: Settings, place: usize) -> bool
    requires { StoreOf settings store.now × (place < settings.places) }
    ensures { result ≡ (decode (words store.now)).bricks.member ((decode (words store.now)).ids place) }
{
    id(store, settings, place) != 0 && status(store, settings, place).member
}

// Is it an up member? A member of a sound store is up.
pub fn up_member(store: &[u8], settings: Settings, place: usize) -> bool
    requires { StoreOf settings store.now × (place < settings.places) }
    ensures { result ≡ up_member (decode (words store.now)) ((decode (words store.now)).ids place) }
{
    is_member(store, settings, place)
}

// Is there such a place, and does it hold an up member?
pub fn asks(store: &[u8], settings: Settings, place: u64) -> Result<(), Refusal>
    requires { StoreOf settings store.now }
    ensures { code_of result ≡ first_no (place_asks (decode (words store.now)) place) }
{
    if settings.places as u64 <= place {
        return Err(Refusal::BadInput);
    }
    if up_member(store, settings, place as usize) {
        Ok(())
    } else {
        Err(Refusal::NoMember)
    }
}

// ---- the parts of a place that holds a brick

// Where a bucket's copy in memory begins, and its copy on disk.
pub fn memory_at(settings: Settings, bucket: usize) -> usize
    requires { Limits settings × (bucket < buckets settings) }
    ensures { (result ≡ copies_at settings bucket) × (result + copies_words settings ≤ log_at settings) }
{
    sizes::COPIES_AT + words::offset(bucket, sizes::copies_words(settings), settings.buckets())
}

pub fn disk_at(settings: Settings, bucket: usize) -> usize
    requires { Limits settings × (bucket < buckets settings) }
    ensures { (result ≡ copies_at settings bucket + copy_words settings) × (result + copy_words settings ≤ log_at settings) }
{
    memory_at(settings, bucket) + sizes::copy_words(settings)
}

// So many words of a place, from its word `at` on.
fn words_of<'a>(
    store: &'a [u8],
    settings: Settings,
    place: usize,
    at: usize,
    count: usize,
) -> &'a [u8]
    requires { StoreOf settings store.now × (place < settings.places) × (at + count ≤ place_words settings) }
    ensures { WordsOf settings place at count store.now result.now }
{
    let whole = part(store, settings, place);
    let from = 8 * at;
    let to = from + 8 * count;
    &whole[from..to]
}

// Its append buffer.
pub fn buffer<'a>(store: &'a [u8], settings: Settings, place: usize) -> &'a [u8]
    requires { StoreOf settings store.now × (place < settings.places) × (0 < (decode (words store.now)).ids place) }
    ensures { BufferPart ((decode (words store.now)).bricks.buffer ((decode (words store.now)).ids place)) result.now }
{
    let at = sizes::BUFFER_AT;
    words_of(store, settings, place, at, sizes::BUFFER_WORDS)
}

// Its copy of a bucket in memory, and the one on disk.
// stays: each is two lines; one function with a parameter for the copy would choose where it begins, and its promise would choose between two fields
pub fn memory<'a>(store: &'a [u8], settings: Settings, place: usize, bucket: usize) -> &'a [u8]
    requires { StoreOf settings store.now × (place < settings.places) × (0 < (decode (words store.now)).ids place) × (bucket < buckets settings) }
    ensures { CopyPart settings.entries
        (((decode (words store.now)).bucket bucket).memory ((decode (words store.now)).ids place)) result.now }
{
    let at = memory_at(settings, bucket);
    words_of(store, settings, place, at, sizes::copy_words(settings))
}

pub fn disk<'a>(store: &'a [u8], settings: Settings, place: usize, bucket: usize) -> &'a [u8]
    requires { StoreOf settings store.now × (place < settings.places) × (0 < (decode (words store.now)).ids place) × (bucket < buckets settings) }
    ensures { CopyPart settings.entries
        (((decode (words store.now)).bucket bucket).disk ((decode (words store.now)).ids place)) result.now }
{
    let at = disk_at(settings, bucket);
    words_of(store, settings, place, at, sizes::copy_words(settings))
}

// Its log.
pub fn log<'a>(store: &'a [u8], settings: Settings, place: usize) -> &'a [u8]
    requires { StoreOf settings store.now × (place < settings.places) × (0 < (decode (words store.now)).ids place) }
    ensures { LogPart settings ((decode (words store.now)).bricks.log ((decode (words store.now)).ids place)) result.now }
{
    let at = sizes::log_at(settings);
    words_of(store, settings, place, at, sizes::log_words(settings))
}

// How many chunks its log has.
pub fn chunk_count(store: &[u8], settings: Settings, place: usize) -> u64
    requires { StoreOf settings store.now × (place < settings.places) × (0 < (decode (words store.now)).ids place) }
    ensures { result ≡ length ((decode (words store.now)).bricks.log ((decode (words store.now)).ids place)) }
{
    words::read(log(store, settings, place), 0)
}
