// A bucket: its number, and its share of the agreed record.
ghost use Rattle.std.specs.Prelude.{◌≡◌, ◌<◌, length};
ghost use Rattle.lists.specs.Runs.{on_run};
ghost use Rattle.words.specs.Words.{words};
ghost use Rattle.rules.specs.Limits.{buckets};
ghost use Rattle.rules.specs.Numbers.{bucket_of};
ghost use Rattle.layout.specs.Layout.{agreed_codec, agreed_words, agreed_at};
ghost use Rattle.layout.specs.Store.{agreed_in, decode, store_bytes};
ghost use Rattle.records.specs.Records.{agreed_of};
ghost use Rattle.lent.specs.Stores.{StoreOf};

use layout::sizes;
use records::agreed::Agreed;
use rules::numbers::BlockNumber;
use rules::settings::Settings;

// The bucket of a block.
pub fn number(settings: Settings, block: BlockNumber) -> usize
    ensures { (result ≡ bucket_of (buckets settings) block.0) × (result < buckets settings) }
{
    block.bucket(settings) as usize
}

// Its share of the agreed record.
pub fn agreed(store: &[u8], settings: Settings, bucket: usize) -> Agreed
    requires { StoreOf settings store.now × (bucket < buckets settings) }
    ensures { agreed_of result ≡ agreed_in ((decode (words store.now)).bucket bucket) }
{
    let at = 8 * sizes::agreed_at(settings, bucket);
    records::agreed::read(&store[at..at + 8 * sizes::AGREED_WORDS])
}

// It is written.
pub fn write(store: &mut [u8], settings: Settings, bucket: usize, agreed: Agreed)
    requires { (length store.old ≡ store_bytes settings) × (bucket < buckets settings) }
    ensures { words store.new ≡ on_run (agreed_at bucket) agreed_words (agreed_codec.enc (agreed_of agreed)) (words store.old) }
{
    let at = 8 * sizes::agreed_at(settings, bucket);
    records::agreed::write(&mut store[at..at + 8 * sizes::AGREED_WORDS], agreed);
}
