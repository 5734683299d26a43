// The questions, by what a no to each means.
ghost use Rattle.std.specs.Prelude.{◌≡◌, Result};
ghost use Rattle.rules.specs.Refusals.{number, code_of};

#[derive(Clone, Copy, Debug, PartialEq, Eq)]
pub enum Refusal {
    BadSettings,
    Unsound,
    BadInput,
    WrongProxy,
    ViewUnknown,
    NoMember,
    NotReady,
    Pending,
    WrongItem,
    NoRoom,
    NoChunk,
    NoNumber,
    WrongState,
    BackupFull,
    OtherKey,
}

// Its number, as calls for C and lines of text have it.
impl From<Refusal> for u64 {
    ghost from_gives = { λ refusal n. n ≡ number refusal };

    fn from(refusal: Refusal) -> u64 {
        match refusal {
            Refusal::BadSettings => 1,
            Refusal::Unsound => 2,
            Refusal::BadInput => 3,
            Refusal::WrongProxy => 4,
            Refusal::ViewUnknown => 5,
            Refusal::NoMember => 6,
            Refusal::NotReady => 7,
            Refusal::Pending => 8,
            Refusal::WrongItem => 9,
            Refusal::NoRoom => 10,
            Refusal::NoChunk => 11,
            Refusal::NoNumber => 12,
            Refusal::WrongState => 13,
            Refusal::BackupFull => 14,
            Refusal::OtherKey => 15,
        }
    }
}

// The number that a call answers: 0 where no question was answered no.
pub fn code(answer: Result<(), Refusal>) -> u64
    ensures { result ≡ code_of answer }
{
    match answer {
        Ok(()) => 0,
        Err(refusal) => u64::from(refusal),
    }
}
