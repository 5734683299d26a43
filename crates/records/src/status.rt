// A brick's status: its flags and sequence numbers.
ghost use Rattle.std.specs.Prelude.{◌≡◌, ◌*◌, length};
ghost use Rattle.words.specs.Words.{words};
ghost use Rattle.layout.specs.Layout.{status_codec, status_words};
ghost use Rattle.records.specs.Records.{status_of};

use layout::sizes;

// offsets in the part, which begins with the first flag
const UP_AT: usize = 0;

const MEMBER_AT: usize = sizes::MEMBER_AT - sizes::UP_AT;

const BEGAN_AT: usize = sizes::BEGAN_AT - sizes::UP_AT;

const NEXT_AT: usize = sizes::NEXT_AT - sizes::UP_AT;

const CEILING_AT: usize = sizes::CEILING_AT - sizes::UP_AT;

#[derive(Clone, Copy)]
pub struct Status {
    pub up: bool,
    pub member: bool,
    pub began: bool,
    pub next: u64,
    pub ceiling: u64,
}

pub fn read(part: &[u8]) -> Status
    requires { length part.now ≡ 8 * status_words }
    ensures { status_of result ≡ status_codec.dec (words part.now) }
{
    Status {
        up: words::read(part, UP_AT) == 1,
        member: words::read(part, MEMBER_AT) == 1,
        began: words::read(part, BEGAN_AT) == 1,
        next: words::read(part, NEXT_AT),
        ceiling: words::read(part, CEILING_AT),
    }
}

pub fn write(part: &mut [u8], status: Status)
    requires { length part.old ≡ 8 * status_words }
    ensures { words part.new ≡ status_codec.enc (status_of status) (words part.old) }
{
    let list = [
        status.up as u64,
        status.member as u64,
        status.began as u64,
        status.next,
        status.ceiling,
    ];
    moves::put_words(part, 0, &list);
}
