// A place's head: the id of its brick, 0 where it is empty, and the brick's status.
ghost use Rattle.std.specs.Prelude.{◌≡◌, ◌*◌, ◌<◌, length};
ghost use Rattle.words.specs.Words.{words};
ghost use Rattle.codec.specs.Codec.{Clean, change};
ghost use Rattle.layout.specs.Layout.{place_codec, place_words};
ghost use Rattle.records.specs.Records.{status_of, with_id, with_status};

use crate::status;
use crate::status::Status;
use layout::sizes;
use rules::settings::Settings;

pub fn id(part: &[u8], settings: Settings) -> u64
    requires { length part.now ≡ 8 * place_words settings }
    ensures { result ≡ ((place_codec settings).dec (words part.now)).fst }
{
    words::read(part, sizes::ID_AT)
}

// Of a place that holds a brick: another id, or 0, which empties the place.
pub fn set_id(part: &mut [u8], settings: Settings, id: u64)
    requires { (length part.old ≡ 8 * place_words settings) × (0 < ((place_codec settings).dec (words part.old)).fst)
        × Clean (place_codec settings) (words part.old) }
    ensures { words part.new ≡ change (place_codec settings) (with_id id) (words part.old) }
{
    words::write(part, sizes::ID_AT, id);
}

pub fn read_status(part: &[u8], settings: Settings) -> Status
    requires { (length part.now ≡ 8 * place_words settings) × (0 < ((place_codec settings).dec (words part.now)).fst) }
    ensures { status_of result ≡ ((place_codec settings).dec (words part.now)).snd.status }
{
    status::read(&part[8 * sizes::UP_AT..8 * sizes::BUFFER_AT])
}

pub fn write_status(part: &mut [u8], settings: Settings, status: Status)
    requires { (length part.old ≡ 8 * place_words settings) × (0 < ((place_codec settings).dec (words part.old)).fst)
        × Clean (place_codec settings) (words part.old) }
    ensures { words part.new ≡ change (place_codec settings) (with_status (status_of status)) (words part.old) }
{
    status::write(&mut part[8 * sizes::UP_AT..8 * sizes::BUFFER_AT], status);
}
