// An event line, six bytes: a letter, a number in four columns, a line feed. Orders and replies stand so in a journal, replies in the
// drill's input, and orders and ends in what the drill prints.
#![tactic(auto)]

ghost use Rattle.std.specs.Prelude.{◌≡◌, suc, ◌≤◌, length, MatchOption};
ghost use Rattle.std.proofs.lemmas.List.Edits.{sets};
ghost use Rattle.event_lines.specs.Line.{is_order, line_text, line_of};

// What a line of this form says: a letter and a number, whatever they are. A letter that is no event's has no type of its own: replies come
// from C by their letters, and whoever takes them refuses those that do not fit, in the rules' own order.
#[derive(Clone, Copy, PartialEq, Eq, Debug)]
pub struct Event {
    pub letter: u8,
    pub booking: u32,
}

impl Event {
    // The booking's index; number 0 is no booking's.
    pub fn index(self) -> Option<usize>
        ensures { MatchOption result (self.booking ≡ 0) (λ i. self.booking ≡ suc i) }
    {
        (self.booking as usize).checked_sub(1)
    }
}

// Reads a line; None where the bytes are no line of this form. A part that is too short is none.
pub fn read_line(line: &[u8]) -> Option<Event>
    ensures { result ≡ line_of line.now }
{
    if line.len() != 6 {
        return None;
    }
    let x = decimal::field_at(line, 1, 4).ok()?;
    if line[5] != b'\n' {
        return None;
    }
    Some(Event {
        letter: line[0],
        booking: x as u32,
    })
}

// Whether a line with this letter is an order's.
#[tactic(auto, unfolding(crate::specs::Line::is_order))]
pub fn is_order(letter: u8) -> bool
    ensures { result ≡ is_order letter }
{
    matches!(letter, b'Q' | b'U')
}

// Writes a line at the front, and gives its length.
pub fn write_line(buf: &mut [u8], letter: u8, x: usize) -> usize
    requires { 6 ≤ length buf.old }
    ensures size { result ≡ length (line_text letter x) }
    ensures text { buf.new ≡ sets buf.old 0 (line_text letter x) }
{
    buf[0] = letter;
    decimal::write_field(&mut buf[1..5], x);
    buf[5] = b'\n';
    6
}
