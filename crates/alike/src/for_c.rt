// The answer as a number, for the call for C.
ghost use Rattle.std.specs.Prelude.{◌≡◌};
ghost use Rattle.alike.specs.Alike.{alike_answer, alike_number};

// Are two lent stores alike?
pub fn alike(one: &[u8], other: &[u8]) -> u64
    ensures { result ≡ alike_number (alike_answer one.now other.now) }
{
    match crate::alike(one, other) {
        Ok(true) => 0,
        Ok(false) => 1,
        Err(refusal) => u64::from(refusal),
    }
}
