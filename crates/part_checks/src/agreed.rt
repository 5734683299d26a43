// Each bucket's share of the agreed record.
ghost use Rattle.std.specs.Prelude.{◌≡◌, length};
ghost use Rattle.lists.specs.Tests.{all_below};
ghost use Rattle.words.specs.Words.{words};
ghost use Rattle.rules.specs.Limits.{buckets};
ghost use Rattle.rules.specs.Sound.{sound_pair};
ghost use Rattle.part_checks.specs.Agreed.{agreed_sound, agreed_at_sound, AgreedFit, AllAgreedFit};

use layout::sizes;
use rules::constants;
use rules::settings::Settings;

fn pair_good(given: u64, one: u64, other: u64) -> bool
    ensures { result ≡ sound_pair given one other }
{
    (0 < one) & (one <= given) & (0 < other) & (other <= given) & (one != other)
}

fn agreed_good(given: u64, bytes: &[u8]) -> bool
    requires { AgreedFit (length bytes.now) }
    ensures { result ≡ agreed_sound given (words bytes.now) }
{
    let pair = pair_good(
        given,
        words::read(bytes, sizes::PRIMARY_AT),
        words::read(bytes, sizes::BACKUP_AT),
    );
    let last = pair_good(
        given,
        words::read(bytes, sizes::LAST_PRIMARY_AT),
        words::read(bytes, sizes::LAST_BACKUP_AT),
    );
    let ready = words::read(bytes, sizes::READY_AT);
    let fetched = words::read(bytes, sizes::FETCHED_AT);
    let last_sent = words::read(bytes, sizes::LAST_SENT_AT);
    let taken = words::read(bytes, sizes::TAKEN_AT);
    pair & last
        & (last_sent <= constants::MAX_VIEW_OR_ORDER)
        & (taken <= constants::MAX_VIEW_OR_ORDER)
        & (ready <= 1)
        & (fetched <= 1)
}

// The records of all buckets.
pub fn all_agreed_good(settings: Settings, given: u64, store: &[u8]) -> bool
    requires { AllAgreedFit settings (length store.now) }
    ensures { result ≡ all_below (buckets settings) (agreed_at_sound given (words store.now)) }
{
    for g in 0..settings.buckets() {
        let a = 8 * sizes::agreed_at(settings, g);
        if !agreed_good(given, &store[a..a + 8 * sizes::AGREED_WORDS]) {
            return false;
        }
    }
    true
}
