// The answer as a struct, for the calls for C: a no answers with its number and nothing else.
ghost use Rattle.std.specs.Prelude.{◌≡◌, length};
ghost use Rattle.rules.specs.Event.{fields_brought};
ghost use Rattle.print.specs.Answers.{printed, line_after, line_answer};

use text::Event;

#[repr(C)]
#[derive(Clone, Copy)]
pub struct LineAnswer {
    pub code: u64,
    pub length: usize,
}

impl From<Option<usize>> for LineAnswer {
    ghost from_gives = { λ answer given. given ≡ line_answer answer };

    #[tactic(auto, unfolding(crate::specs::Answers::line_answer))]
    fn from(answer: Option<usize>) -> LineAnswer {
        match answer {
            Some(length) => LineAnswer { code: 0, length },
            None => LineAnswer { code: 3, length: 0 },
        }
    }
}

// The line of an event, as `print::print` gives it.
pub fn print(
    kind: u64,
    a: u64,
    b: u64,
    c: u64,
    data: &[u8],
    size: usize,
    line: &mut [u8],
) -> LineAnswer
    ensures { (result ≡ line_answer (printed size (fields_brought kind a b c «data».now) (length line.old)))
        × (line.new ≡ line_after size (fields_brought kind a b c «data».now) line.old) }
{
    LineAnswer::from(crate::print(Event { kind, a, b, c }, data, size, line))
}
