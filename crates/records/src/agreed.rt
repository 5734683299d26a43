// A bucket's share of the agreed record.
ghost use Rattle.std.specs.Prelude.{◌≡◌, ◌*◌, length};
ghost use Rattle.words.specs.Words.{words};
ghost use Rattle.layout.specs.Layout.{agreed_codec, agreed_words};
ghost use Rattle.records.specs.Records.{agreed_of};

use layout::sizes;

#[derive(Clone, Copy)]
pub struct Agreed {
    pub primary: u64,
    pub backup: u64,
    pub last_primary: u64,
    pub last_backup: u64,
    pub ready: bool,
    pub fetched: bool,
    pub last_sent: u64,
    pub taken: u64,
}

pub fn read(part: &[u8]) -> Agreed
    requires { length part.now ≡ 8 * agreed_words }
    ensures { agreed_of result ≡ agreed_codec.dec (words part.now) }
{
    Agreed {
        primary: words::read(part, sizes::PRIMARY_AT),
        backup: words::read(part, sizes::BACKUP_AT),
        last_primary: words::read(part, sizes::LAST_PRIMARY_AT),
        last_backup: words::read(part, sizes::LAST_BACKUP_AT),
        ready: words::read(part, sizes::READY_AT) == 1,
        fetched: words::read(part, sizes::FETCHED_AT) == 1,
        last_sent: words::read(part, sizes::LAST_SENT_AT),
        taken: words::read(part, sizes::TAKEN_AT),
    }
}

pub fn write(part: &mut [u8], agreed: Agreed)
    requires { length part.old ≡ 8 * agreed_words }
    ensures { words part.new ≡ agreed_codec.enc (agreed_of agreed) (words part.old) }
{
    let list = [
        agreed.primary,
        agreed.backup,
        agreed.last_primary,
        agreed.last_backup,
        agreed.ready as u64,
        agreed.fetched as u64,
        agreed.last_sent,
        agreed.taken,
    ];
    moves::put_words(part, 0, &list);
}
