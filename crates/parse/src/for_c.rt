// The answers as structs, for the calls for C: a no answers with its number and nothing else.
ghost use Rattle.std.specs.Prelude.{◌≡◌, length};
ghost use Rattle.area.specs.Area.{onto};
ghost use Rattle.text.specs.Lines.{read_settings};
ghost use Rattle.parse.specs.Answers.{parsed, answer_to, bytes_read, settings_answer, event_answer, four_answer};

use crate::SettingsLine;
use text::Event;

#[repr(C)]
#[derive(Clone, Copy)]
pub struct EventAnswer {
    pub code: u64,
    pub kind: u64,
    pub a: u64,
    pub b: u64,
    pub c: u64,
}

impl From<Option<Event>> for EventAnswer {
    ghost from_gives = { λ answer given. given ≡ event_answer answer };

    #[tactic(auto, unfolding(crate::specs::Answers::event_answer))]
    fn from(answer: Option<Event>) -> EventAnswer {
        match answer {
            Some(event) => EventAnswer {
                code: 0,
                kind: event.kind,
                a: event.a,
                b: event.b,
                c: event.c,
            },
            None => EventAnswer {
                code: 3,
                kind: 0,
                a: 0,
                b: 0,
                c: 0,
            },
        }
    }
}

#[repr(C)]
#[derive(Clone, Copy)]
pub struct SettingsAnswer {
    pub code: u64,
    pub places: u64,
    pub size: u64,
    pub entries: u64,
    pub chunks: u64,
}

impl From<Option<SettingsLine>> for SettingsAnswer {
    ghost from_gives = { λ answer given. given ≡ four_answer answer };

    #[tactic(auto, unfolding(crate::specs::Answers::four_answer))]
    fn from(answer: Option<SettingsLine>) -> SettingsAnswer {
        match answer {
            Some(line) => SettingsAnswer {
                code: 0,
                places: line.places,
                size: line.size,
                entries: line.entries,
                chunks: line.chunks,
            },
            None => SettingsAnswer {
                code: 3,
                places: 0,
                size: 0,
                entries: 0,
                chunks: 0,
            },
        }
    }
}

// The event of a line, as `parse::parse` gives it.
pub fn parse(line: &[u8], size: usize, data: &mut [u8]) -> EventAnswer
    ensures { (result ≡ event_answer (answer_to (parsed size (length «data».old) line.now)))
        × («data».new ≡ onto 0 (bytes_read (parsed size (length «data».old) line.now)) «data».old) }
{
    EventAnswer::from(crate::parse(line, size, data))
}

// The settings of a line, as `parse::parse_settings` gives them.
pub fn parse_settings(line: &[u8]) -> SettingsAnswer
    ensures { result ≡ four_answer (settings_answer (read_settings line.now)) }
{
    SettingsAnswer::from(crate::parse_settings(line))
}
