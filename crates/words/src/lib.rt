// 64-bit words in a byte slice, the least byte first. A slice is seen as the list of its words. And a binary search among numbers that a closure reads.
#![tactic(auto)]

ghost use Rattle.std.specs.Prelude.{◌≡◌, ℕ, ◌+◌, ◌*◌, ◌^◌, ◌<◌, ◌≤◌, length, get_or, set};
ghost use Rattle.lists.specs.Ascending.{FirstNotBelow};
ghost use Rattle.words.specs.Words.{words};

// The word at index i.
pub fn read(s: &[u8], i: usize) -> u64
    requires { 8 * i + 8 ≤ length s.now }
    ensures { result ≡ get_or (words s.now) i 0 }
{
    let (list, _) = s.as_chunks::<8>();
    u64::from_le_bytes(list[i])
}

// The word at index i becomes v.
pub fn write(s: &mut [u8], i: usize, v: u64)
    requires { 8 * i + 8 ≤ length s.old }
    ensures { words s.new ≡ set (words s.old) i v }
{
    let at = 8 * i;
    s[at..at + 8].copy_from_slice(&v.to_le_bytes());
}

// Where record i of n records of a size starts.
pub fn offset(i: usize, size: usize, n: usize) -> usize
    requires { (i < n) × (n * size < 2 ^ 63) }
    ensures { (result ≡ i * size) × (result + size ≤ n * size) }
{
    i * size
}

// The first index whose number is not below x, among n that ascend: n where there is none. It is said of every f that the closure computes.
// stays: no index is counted, two bounds close in on each other.
pub fn lower_bound<F: Fn(usize) -> u64>(n: usize, x: u64, number: F) -> usize
    requires { (i : ℕ) → i < n → F.pre number i }
    ensures within { result ≤ n }
    ensures first { (f : ℕ → ℕ) → ((i r : ℕ) → i < n → F.post number i r → r ≡ f i)
        → ((i j : ℕ) → i < j → j < n → f i < f j) → FirstNotBelow f n x result }
{
    let mut low = 0;
    let mut high = n;
    while low < high {
        let mid = low + (high - low) / 2;
        if number(mid) < x {
            low = mid + 1;
        } else {
            high = mid;
        }
    }
    low
}
