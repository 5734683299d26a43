// The kinds of event and their words: looked up and written.

#![tactic(auto)]

ghost use Rattle.std.specs.Prelude.{◌≡◌, ◌≤◌, IfSome, length};
ghost use Rattle.area.specs.Area.{onto};
ghost use Rattle.rules.specs.Event.{kind_count, kind_at};
ghost use Rattle.text.specs.Kinds.{packed, kind_of_packed};
ghost use Rattle.text.specs.Lines.{is_line};
ghost use Rattle.text.specs.Table.{shape_of};

// The bytes that a line has at most, its line feed counted.
pub const LONGEST: usize = 16_500;

// The number of kinds.
pub const KINDS: usize = 22;

// An event as numbers: its kind, 1 to 22 where there is such a kind, and the three that follow, those that the kind does not have 0.
#[derive(Clone, Copy)]
pub struct Event {
    pub kind: u64,
    pub a: u64,
    pub b: u64,
    pub c: u64,
}

// How a kind's line looks: how many bytes its word has, how many numbers follow, and whether data follows those.
#[derive(Clone, Copy)]
pub struct Shape {
    pub len: u8,
    pub numbers: u8,
    pub payload: bool,
}

fn row(len: u8, numbers: u8, payload: bool) -> Shape
    ensures { result ≡ record { len = len; numbers = numbers; payload = payload } }
{
    Shape {
        len,
        numbers,
        payload,
    }
}

// The shape of a kind, 1 to 22.
#[tactic(auto, unfolding(rules::specs::Event::ascii, rules::specs::Event::kinds, rules::specs::Event::kind_at, crate::specs::Table::shape_of))]
pub fn shape_of(kind: usize) -> Shape
    requires { (1 ≤ kind) × (kind ≤ kind_count) }
    ensures { result ≡ shape_of (kind_at kind) }
{
    match kind {
        1 => row(3, 3, true),
        2 => row(4, 1, false),
        3 => row(7, 1, false),
        4 => row(3, 2, false),
        5 => row(4, 1, false),
        6 => row(7, 1, false),
        7 => row(4, 1, false),
        8 => row(7, 1, false),
        9 => row(4, 2, false),
        10 => row(3, 2, false),
        11 => row(7, 2, false),
        12 => row(5, 1, false),
        13 => row(5, 1, false),
        14 => row(5, 1, false),
        15 => row(4, 1, false),
        16 => row(4, 1, false),
        17 => row(4, 1, false),
        18 => row(4, 0, false),
        19 => row(5, 1, false),
        20 => row(5, 1, false),
        21 => row(4, 1, false),
        _ => row(7, 1, false),
    }
}

// A word as one number, a 1 and its bytes; of a fixed word it is a constant in the compiled code.
#[tactic(auto, using(crate::proofs::Packed::packed_none, crate::proofs::Packed::packed_turn, crate::proofs::Packed::packed_fits), unfolding(crate::specs::Kinds::packed))]
fn pack(word: &[u8]) -> u64
    requires { length word.now ≤ 7 }
    ensures { result ≡ packed word.now }
{
    let mut n: u64 = 1;
    for b in word {
        n = 256 * n + *b as u64;
    }
    n
}

// The kind that a word stands for; the word comes packed.
#[tactic(auto, unfolding(rules::specs::Event::ascii, rules::specs::Event::kinds, crate::specs::Kinds::packed_upto, crate::specs::Kinds::packed, crate::specs::Kinds::packed_from, crate::specs::Kinds::kind_of_packed))]
pub fn find_kind(word: u64) -> Option<usize>
    ensures kind { result ≡ kind_of_packed word }
    ensures bound { IfSome result (λ k. k ≤ kind_count) }
{
    match word {
        _ if word == pack(b"put") => Some(1),
        _ if word == pack(b"copy") => Some(2),
        _ if word == pack(b"savelog") => Some(3),
        _ if word == pack(b"map") => Some(4),
        _ if word == pack(b"send") => Some(5),
        _ if word == pack(b"deliver") => Some(6),
        _ if word == pack(b"drop") => Some(7),
        _ if word == pack(b"savemap") => Some(8),
        _ if word == pack(b"done") => Some(9),
        _ if word == pack(b"get") => Some(10),
        _ if word == pack(b"abandon") => Some(11),
        _ if word == pack(b"learn") => Some(12),
        _ if word == pack(b"reset") => Some(13),
        _ if word == pack(b"crash") => Some(14),
        _ if word == pack(b"lose") => Some(15),
        _ if word == pack(b"rise") => Some(16),
        _ if word == pack(b"join") => Some(17),
        _ if word == pack(b"view") => Some(18),
        _ if word == pack(b"fetch") => Some(19),
        _ if word == pack(b"ready") => Some(20),
        _ if word == pack(b"mend") => Some(21),
        _ if word == pack(b"collect") => Some(22),
        _ => None,
    }
}

// A word at the front of an area; how long it is.
#[tactic(auto, unfolding(area::specs::Area::onto))]
fn put_front(word: &[u8], area: &mut [u8]) -> usize
    requires { length word.now ≤ length area.old }
    ensures { (result ≡ length word.now) × (area.new ≡ onto 0 word.now area.old) }
{
    area[..word.len()].copy_from_slice(word);
    word.len()
}

// The word of a kind, at the front of an area; the place after it. Each arm copies so many bytes as its word has, without a loop.
#[tactic(auto, unfolding(rules::specs::Event::ascii, rules::specs::Event::kinds, rules::specs::Event::kind_at))]
pub fn put_word(kind: usize, area: &mut [u8]) -> usize
    requires { (1 ≤ kind) × (kind ≤ kind_count) × (length (kind_at kind).word ≤ length area.old) }
    ensures { (result ≡ length (kind_at kind).word) × (area.new ≡ onto 0 (kind_at kind).word area.old) }
{
    match kind {
        1 => put_front(b"put", area),
        2 => put_front(b"copy", area),
        3 => put_front(b"savelog", area),
        4 => put_front(b"map", area),
        5 => put_front(b"send", area),
        6 => put_front(b"deliver", area),
        7 => put_front(b"drop", area),
        8 => put_front(b"savemap", area),
        9 => put_front(b"done", area),
        10 => put_front(b"get", area),
        11 => put_front(b"abandon", area),
        12 => put_front(b"learn", area),
        13 => put_front(b"reset", area),
        14 => put_front(b"crash", area),
        15 => put_front(b"lose", area),
        16 => put_front(b"rise", area),
        17 => put_front(b"join", area),
        18 => put_front(b"view", area),
        19 => put_front(b"fetch", area),
        20 => put_front(b"ready", area),
        21 => put_front(b"mend", area),
        _ => put_front(b"collect", area),
    }
}

// Does a text end in a line feed, and is it no longer than a line may be?
#[tactic(auto, using(crate::proofs::Lines::no_bytes_no_line, crate::proofs::Lines::too_long, crate::proofs::Lines::by_last))]
pub fn is_line(line: &[u8]) -> bool
    ensures { result ≡ is_line line.now }
{
    line.len() <= LONGEST && matches!(line, [.., b'\n'])
}
