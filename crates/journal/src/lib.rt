// A journal, read line after line: a reader that holds what is left of the lent bytes. Whoever reads lines goes over it with a `for`.
#![tactic(auto)]

ghost use Rattle.std.specs.Prelude.{◌≡◌};
ghost use Rattle.std.specs.Iterator.{item_count};
ghost use Rattle.journal.specs.Reading.{lines_left, GivesLine};

use event_lines::Event;

// A reader: the bytes that are still to be read.
#[derive(Clone, Copy)]
pub struct Journal<'a> {
    pub rest: &'a [u8],
}

// A reader of these bytes, from the front on.
pub fn lines(bytes: &[u8]) -> Journal<'_>
    ensures { result.rest.now ≡ bytes.now }
{
    Journal { rest: bytes }
}

// What each whole line holds; the end where fewer than six bytes are left, which stay.
impl<'a> Iterator for Journal<'a> {
    type Item = Option<Event>;

    ghost next_gives = { GivesLine };

    ghost remaining = { item_count lines_left };

    fn next(&mut self) -> Option<Option<Event>> {
        let (line, rest) = self.rest.split_at_checked(6)?;
        self.rest = rest;
        Some(event_lines::read_line(line))
    }
}
