// A proxy's part: the view that it knows, then its items.
ghost use Rattle.std.specs.Prelude.{◌≡◌, ◌*◌, length};
ghost use Rattle.words.specs.Words.{words};
ghost use Rattle.codec.specs.Codec.{change};
ghost use Rattle.layout.specs.Contents.{blank_proxy};
ghost use Rattle.layout.specs.Layout.{proxy_codec, proxy_words};
ghost use Rattle.records.specs.Records.{with_known};

use layout::sizes;
use rules::numbers::ViewNumber;

pub fn known(part: &[u8]) -> ViewNumber
    requires { length part.now ≡ 8 * proxy_words }
    ensures { result.0 ≡ (proxy_codec.dec (words part.now)).known }
{
    ViewNumber(words::read(part, sizes::KNOWN_AT))
}

// The items stay.
pub fn set_known(part: &mut [u8], view: ViewNumber)
    requires { length part.old ≡ 8 * proxy_words }
    ensures { words part.new ≡ change proxy_codec (with_known view.0) (words part.old) }
{
    words::write(part, sizes::KNOWN_AT, view.0);
}

// It knows no view and has no items.
pub fn clear(part: &mut [u8])
    requires { length part.old ≡ 8 * proxy_words }
    ensures { words part.new ≡ proxy_codec.enc blank_proxy (words part.old) }
{
    words::write(part, sizes::KNOWN_AT, 0);
    words::write(part, sizes::ITEMS_AT, 0);
}
