// Format: the first state, rendered over the lent bytes.

#![tactic(auto)]

ghost use Rattle.std.specs.Prelude.{◌≡◌, ◌+◌, ◌*◌, ◌<◌, ◌≤◌, length, replicate};
ghost use Rattle.words.specs.Words.{words};
ghost use Rattle.rules.specs.Limits.{buckets};
ghost use Rattle.rules.specs.Format.{first_pairs, format};
ghost use Rattle.rules.specs.Limits.{Limits};
ghost use Rattle.codec.specs.Codec.{◌&◌};
ghost use Rattle.layout.specs.Contents.{blank_proxy, blank_copies};
ghost use Rattle.layout.specs.Layout.{all_agreed_codec, all_proxies_codec, copies_codec, all_copies_codec, place_codec, all_places_codec};
ghost use Rattle.layout.specs.Layout.{agreed_words, copies_words, place_words};
ghost use Rattle.layout.specs.Store.{render, store_bytes};
ghost use Rattle.records.specs.Records.{agreed_of, status_of};
ghost use Rattle.format.specs.First.{first_agreed, agreed_in, new_brick, first_place};

use layout::{lend, sizes};
use records::agreed::Agreed;
use records::head::Head;
use records::status::Status;
use rules::constants;
use rules::numbers::ViewNumber;
use rules::settings::Settings;

// the bricks' ids, in the order of their places
const FIRST_IDS: [u64; Settings::MAX_PLACES] = [1, 2, 3, 4, 5, 6, 7, 8];

// The pairs of the first view go into the assignments: no bucket had a pair before.
fn first_pairs(settings: Settings, assigned: &mut [u64])
    requires { Limits settings × (assigned.old ≡ replicate (2 * buckets settings) 0) }
    ensures { assigned.new ≡ first_pairs settings }
{
    pairing::assign(&FIRST_IDS[..settings.places], assigned, settings.buckets());
}

// A bucket's record: it is ready.
fn first_agreed(primary: u64, backup: u64) -> Agreed
    ensures { agreed_of result ≡ first_agreed primary backup }
{
    Agreed {
        primary,
        backup,
        last_primary: primary,
        last_backup: backup,
        ready: true,
        fetched: false,
        last_sent: 0,
        taken: 0,
    }
}

// All buckets' records, with the pairs in the assignments.
fn bucket_records(s: &mut [u8], settings: Settings, assigned: &[u64])
    requires { (length s.old ≡ 8 * (buckets settings * agreed_words)) × (length assigned.now ≡ 2 * buckets settings) }
    ensures { words s.new ≡ (all_agreed_codec settings).enc (agreed_in assigned.now) (words s.old) }
{
    lend::each_part(
        s,
        sizes::AGREED_WORDS,
        settings.buckets(),
        |g, part| records::agreed::write(part, first_agreed(assigned[2 * g], assigned[2 * g + 1])),
    );
}

// All proxies, blank.
fn proxies(s: &mut [u8])
    requires { length s.old ≡ 8 * all_proxies_codec.size }
    ensures { words s.new ≡ all_proxies_codec.enc (λ p. blank_proxy) (words s.old) }
{
    lend::each_part(
        s,
        sizes::PROXY_WORDS,
        constants::PROXIES,
        |_, part| records::proxy::clear(part),
    );
}

// A bucket's two copies, empty.
fn copies(s: &mut [u8], settings: Settings)
    requires { Limits settings × (length s.old ≡ 8 * copies_words settings) }
    ensures { words s.new ≡ (copies_codec settings).enc blank_copies (words s.old) }
{
    words::write(s, 0, 0);
    words::write(s, sizes::copy_words(settings), 0);
}

// A brick's copies of all buckets.
fn all_copies(s: &mut [u8], settings: Settings)
    requires { Limits settings × (length s.old ≡ 8 * (buckets settings * copies_words settings)) }
    ensures { words s.new ≡ (all_copies_codec settings).enc (λ g. blank_copies) (words s.old) }
{
    lend::each_part(
        s,
        sizes::copies_words(settings),
        settings.buckets(),
        |_, part| copies(part, settings),
    );
}

// A place with a brick that holds nothing yet.
pub fn place(s: &mut [u8], settings: Settings, id: u64, status: Status)
    requires { Limits settings × (0 < id) × (length s.old ≡ 8 * place_words settings) }
    ensures { words s.new ≡ (place_codec settings).enc (id & new_brick (status_of status)) (words s.old) }
{
    let log = sizes::log_at(settings);
    words::write(s, sizes::ID_AT, id);
    records::status::write(&mut s[8 * sizes::UP_AT..8 * sizes::BUFFER_AT], status);
    words::write(s, sizes::BUFFER_AT, 0);
    all_copies(&mut s[8 * sizes::COPIES_AT..8 * log], settings);
    words::write(s, log, 0);
}

// All places: place p holds brick p + 1.
fn places(s: &mut [u8], settings: Settings)
    requires { Limits settings × (length s.old ≡ 8 * (settings.places * place_words settings)) }
    ensures { words s.new ≡ (all_places_codec settings).enc first_place (words s.old) }
{
    let status = Status {
        up: true,
        member: true,
        began: true,
        next: 0,
        ceiling: 0,
    };
    lend::each_part(
        s,
        sizes::place_words(settings),
        settings.places,
        |p, part| place(part, settings, p as u64 + 1, status),
    );
}

// The first state, with the pairs in the assignments.
fn write(s: &mut [u8], settings: Settings, assigned: &[u64])
    requires { Limits settings × (length s.old ≡ store_bytes settings) × (assigned.now ≡ first_pairs settings) }
    ensures { words s.new ≡ render (format settings) (words s.old) }
{
    let proxies_at = sizes::proxies_at(settings);
    let bag_at = sizes::bag_at(settings);
    let places_at = sizes::places_at(settings);
    let end = s.len();
    let head = Head {
        settings,
        view: ViewNumber(1),
        given: settings.places as u64,
        started: settings.places as u64,
    };
    records::head::write(&mut s[0..8 * sizes::HEAD_WORDS], head);
    bucket_records(
        &mut s[8 * sizes::HEAD_WORDS..8 * proxies_at],
        settings,
        assigned,
    );
    proxies(&mut s[8 * proxies_at..8 * bag_at]);
    words::write(s, bag_at, 0);
    places(&mut s[8 * places_at..end], settings);
}

// The same, with room for the pairs.
fn write_in(s: &mut [u8], settings: Settings, assigned: &mut [u64])
    requires { Limits settings × (length s.old ≡ store_bytes settings) × (assigned.old ≡ replicate (2 * buckets settings) 0) }
    ensures { words s.new ≡ render (format settings) (words s.old) }
{
    first_pairs(settings, assigned);
    write(s, settings, assigned);
}

// The first state over a store of the right length.
pub fn first_state(s: &mut [u8], settings: Settings)
    requires { Limits settings × (length s.old ≡ store_bytes settings) }
    ensures { words s.new ≡ render (format settings) (words s.old) }
{
    let used = 2 * settings.buckets();
    let mut room = [0; pairing::MAX_ASSIGNED];
    write_in(s, settings, &mut room[0..used]);
}
