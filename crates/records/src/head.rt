// The header: the version of the layout, the settings, the view, the highest id given, the number of bricks that the view began with.
ghost use Rattle.std.specs.Prelude.{◌≡◌, ◌*◌, length};
ghost use Rattle.words.specs.Words.{words};
ghost use Rattle.layout.specs.Layout.{head_codec, head_words};
ghost use Rattle.records.specs.Records.{head_of};

use layout::sizes;
use rules::numbers::ViewNumber;
use rules::settings::Settings;

#[derive(Clone, Copy)]
pub struct Head {
    pub settings: Settings,
    pub view: ViewNumber,
    pub given: u64,
    pub started: u64,
}

pub fn read(part: &[u8]) -> Head
    requires { length part.now ≡ 8 * head_words }
    ensures { head_of result ≡ head_codec.dec (words part.now) }
{
    let settings = Settings {
        places: words::read(part, sizes::PLACES_COUNT_AT) as usize,
        size: words::read(part, sizes::BLOCK_SIZE_AT) as usize,
        entries: words::read(part, sizes::MAX_ENTRIES_AT) as usize,
        chunks: words::read(part, sizes::MAX_CHUNKS_AT) as usize,
    };
    Head {
        settings,
        view: ViewNumber(words::read(part, sizes::VIEW_AT)),
        given: words::read(part, sizes::GIVEN_AT),
        started: words::read(part, sizes::STARTED_AT),
    }
}

pub fn write(part: &mut [u8], head: Head)
    requires { length part.old ≡ 8 * head_words }
    ensures { words part.new ≡ head_codec.enc (head_of head) (words part.old) }
{
    let list = [
        sizes::VERSION,
        head.settings.places as u64,
        head.settings.size as u64,
        head.settings.entries as u64,
        head.settings.chunks as u64,
        head.view.0,
        head.given,
        head.started,
    ];
    moves::put_words(part, 0, &list);
}
