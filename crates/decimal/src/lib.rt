// Numbers of 64 bits in decimal text, read and written.

#![tactic(auto)]

ghost use Rattle.std.specs.Prelude.{◌≡◌, ◌+◌, ◌%◌, ◌≤◌, ◌<◌, length, Some};
ghost use Rattle.area.specs.Area.{onto};
ghost use Rattle.decimal.specs.Decimal.{decimal, push, spelled, number_of};

// A number with one more digit. Below the tenth of 2^64 every digit fits; after it, up to 5.
#[tactic(auto, unfolding(crate::specs::Decimal::push))]
pub fn push_digit(number: u64, b: u8) -> Option<u64>
    ensures { result ≡ push number b }
{
    if b < b'0' {
        return None;
    }
    if b'9' < b {
        return None;
    }
    let d = (b - b'0') as u64;
    if number < 0x1999_9999_9999_9999 {
        return Some(10 * number + d);
    }
    if 0x1999_9999_9999_9999 < number {
        return None;
    }
    if 5 < d {
        return None;
    }
    Some(10 * number + d)
}

// The number that a whole text is, written as `write` writes it, where its digits spell this number.
#[tactic(auto, using(crate::proofs::Laws::no_text, crate::proofs::Laws::one_digit, crate::proofs::Laws::leading_zero, crate::proofs::Laws::no_leading_zero))]
pub fn whole(digits: &[u8], number: u64) -> Option<u64>
    requires { spelled 0 digits.now ≡ Some number }
    ensures { result ≡ number_of digits.now }
{
    if digits.is_empty() {
        return None;
    }
    if digits.len() == 1 {
        return Some(number);
    }
    if digits[0] == b'0' {
        return None;
    }
    Some(number)
}

// How many digits a number has.
#[tactic(auto, using(crate::proofs::Laws::width_four, crate::proofs::Laws::decimal_most))]
pub fn width(number: u64) -> usize
    ensures { (result ≡ length (decimal number)) × (result ≤ 20) }
{
    let mut x = number;
    let mut n: usize = 0;
    // stays: a number is divided down, four digits a turn; a `for` over the turns would need a `break` besides
    while 10000 <= x {
        x = x / 10000;
        n += 4;
    }
    n + short_width(x)
}

// The same of a number of at most four digits.
#[tactic(auto, using(crate::proofs::Laws::width_small, crate::proofs::Laws::width_2, crate::proofs::Laws::width_3, crate::proofs::Laws::width_4))]
fn short_width(x: u64) -> usize
    requires { x < 10000 }
    ensures { (result ≡ length (decimal x)) × (result ≤ 4) }
{
    match x {
        0..=9 => 1,
        10..=99 => 2,
        100..=999 => 3,
        _ => 4,
    }
}

// The last digit of a number, as text.
fn last_digit(x: u64) -> u8
    ensures { result ≡ 48 + x % 10 }
{
    b'0' + (x % 10) as u8
}

// The digits at the front of an area, two in each turn; how many they are.
fn write_front(number: u64, area: &mut [u8]) -> usize
    requires { length (decimal number) ≤ length area.old }
    ensures { (result ≡ length (decimal number)) × (area.new ≡ onto 0 (decimal number) area.old) }
{
    let n = width(number);
    let mut x = number;
    let mut i = n - 1;
    // stays: a number is divided down, two digits a turn; a `for` over the places would need a `break` besides
    while 100 <= x {
        area[i] = last_digit(x);
        area[i - 1] = last_digit(x / 10);
        x = x / 100;
        i -= 2;
    }
    if 10 <= x {
        area[1] = last_digit(x);
        area[0] = last_digit(x / 10);
        return n;
    }
    area[0] = last_digit(x);
    n
}

// The digits from a place on; the place after them.
pub fn write(number: u64, area: &mut [u8], at: usize) -> usize
    requires { at + length (decimal number) ≤ length area.old }
    ensures { (result ≡ at + length (decimal number)) × (area.new ≡ onto at (decimal number) area.old) }
{
    at + write_front(number, &mut area[at..])
}
