// The bag of relays.
ghost use Rattle.std.specs.Prelude.{◌≡◌, length};
ghost use Rattle.words.specs.Words.{words};
ghost use Rattle.rules.specs.Sound.{sound_relay, sound_bag};
ghost use Rattle.layout.specs.Layout.{bag_codec};
ghost use Rattle.row_checks.specs.Rows.{key_below};
ghost use Rattle.part_checks.specs.Bag.{relay_in_words, RelayFit, BagFit};

use layout::sizes;
use row_checks::rows;
use rules::constants;
use rules::numbers::BlockNumber;
use rules::settings::Settings;

fn relay_good(settings: Settings, bounds: &[u64], bag: &[u8], i: usize) -> bool
    requires { RelayFit (length bounds.now) (length bag.now) i }
    ensures { result ≡ sound_relay (key_below bounds.now) settings (relay_in_words (words bag.now) i) }
{
    let at = 1 + sizes::RELAY_WORDS * i;
    let view = words::read(bag, at);
    let bucket = words::read(bag, at + 1);
    let order = words::read(bag, at + 2);
    let block = words::read(bag, at + 3);
    let home = BlockNumber(block).bucket(settings);
    let key = rows::key_below(bounds, words::read(bag, at + 4));
    (view <= constants::MAX_VIEW_OR_ORDER)
        & (home == bucket)
        & (order <= constants::MAX_VIEW_OR_ORDER)
        & (block < constants::BLOCKS)
        & key
}

pub fn bag_good(settings: Settings, bounds: &[u64], bag: &[u8]) -> bool
    requires { BagFit (length bounds.now) (length bag.now) }
    ensures { result ≡ sound_bag (key_below bounds.now) settings (bag_codec.dec (words bag.now)) }
{
    let count = words::read(bag, 0);
    if (constants::MAX_RELAYS as u64) < count {
        return false;
    }
    (0..count as usize).all(|i| relay_good(settings, bounds, bag, i))
}
