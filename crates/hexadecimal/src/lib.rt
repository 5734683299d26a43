// Bytes in hexadecimal text, read and written.

#![tactic(auto)]

ghost use Rattle.std.specs.Prelude.{◌≡◌, true, [], ◌∷◌, ◌+◌, ◌*◌, ◌≤◌, ◌<◌, length, get_or};
ghost use Rattle.area.specs.Area.{onto};
ghost use Rattle.hexadecimal.specs.Hex.{hex_digit, hex, is_digit, digit_value, only_digits, unhex, spells_bytes};

#[tactic(auto, unfolding(crate::specs::Hex::hex_digit))]
fn digit(d: u8) -> u8
    requires { d < 16 }
    ensures { result ≡ hex_digit d }
{
    if d < 10 {
        return b'0' + d;
    }
    b'a' + (d - 10)
}

#[tactic(auto, unfolding(crate::specs::Hex::is_digit))]
fn is_digit(b: u8) -> bool
    ensures { result ≡ is_digit b }
{
    matches!(b, b'0'..=b'9' | b'a'..=b'f')
}

// Without a branch: 0 to 9 have the codes 48 to 57, a to f 97 to 102.
#[tactic(auto, using(crate::proofs::Laws::value_is, crate::proofs::Laws::value_below))]
fn value(b: u8) -> u8
    requires { is_digit b ≡ true }
    ensures { (result ≡ digit_value b) × (result < 16) }
{
    b % 16 + 9 * (b / 64)
}

// Every byte is looked at: without a way out of the loop it is done many bytes at a time.
#[tactic(auto, using(crate::proofs::Laws::digits_turn), unfolding(crate::specs::Hex::only_digits))]
fn all_digits(digits: &[u8]) -> bool
    ensures { result ≡ only_digits digits.now }
{
    let mut good = true;
    for b in digits {
        good &= is_digit(*b);
    }
    good
}

// Is a text n bytes?
#[tactic(auto, using(crate::proofs::Laws::wrong_length, crate::proofs::Laws::right_length))]
pub fn is_bytes(digits: &[u8], n: usize) -> bool
    ensures { result ≡ spells_bytes n digits.now }
{
    if digits.len() % 2 != 0 {
        return false;
    }
    if digits.len() / 2 != n {
        return false;
    }
    all_digits(digits)
}

// The byte that two digits give.
#[tactic(auto, using(crate::proofs::Laws::digits_at))]
fn pair(digits: &[u8], at: usize) -> u8
    requires { (at + 1 < length digits.now) × (only_digits digits.now ≡ true) }
    ensures { result ≡ 16 * digit_value (get_or digits.now at 0) + digit_value (get_or digits.now (at + 1) 0) }
{
    16 * value(digits[at]) + value(digits[at + 1])
}

// The bytes of a text fill the area.
#[tactic(auto, using(crate::proofs::Laws::is_bytes))]
pub fn decode(digits: &[u8], area: &mut [u8])
    requires { spells_bytes (length area.old) digits.now ≡ true }
    ensures { area.new ≡ unhex digits.now }
{
    for (i, b) in area.iter_mut().enumerate() {
        *b = pair(digits, 2 * i);
    }
}

// Two digits for a byte, from a place on.
fn encode_byte(b: u8, area: &mut [u8], at: usize)
    requires { at + 2 ≤ length area.old }
    ensures { area.new ≡ onto at (hex (b ∷ [])) area.old }
{
    area::put(area, at, digit(b / 16));
    area::put(area, at + 1, digit(b % 16));
}

// The text of bytes, from a place on.
#[tactic(auto, using(crate::proofs::Laws::encode_turn, area::proofs::Laws::onto_nothing), unfolding(crate::specs::Hex::hex))]
pub fn encode(bytes: &[u8], area: &mut [u8], at: usize)
    requires { at + 2 * length bytes.now ≤ length area.old }
    ensures { area.new ≡ onto at (hex bytes.now) area.old }
{
    for (i, b) in bytes.iter().enumerate() {
        encode_byte(*b, area, at + 2 * i);
    }
}
