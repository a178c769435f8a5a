// The lines that the drill prints of an answer, and what the drill does after it.
#![tactic(auto)]

ghost use Rattle.std.specs.Prelude.{◌≡◌, ◌≤◌, length};
ghost use Rattle.std.proofs.lemmas.List.Edits.{sets};
ghost use Rattle.guarantee.specs.Answers.{kind_of, place_of};
ghost use Rattle.drill_lines.specs.Printed.{answer_of, refusal_of, letter_of, refusal_text, printed_text};
ghost use Rattle.drill_lines.specs.Steps.{step_of};

// What an answer is, by its kind.
#[derive(Clone, Copy, PartialEq, Eq, Debug)]
pub enum Answer {
    Refused,
    Request,
    Return,
    Wait,
    Flown,
    CalledOff,
    Accepted,
}

// What the drill does after an answer.
// A value and no closure: `step_of`, which is proved of `after_answer`, says it of the answer alone.
#[derive(Clone, Copy, PartialEq, Eq, Debug)]
pub enum Step {
    TakeOrder,
    ReadReply,
    Stop,
}

// ---- the parts of an answer

// The kind stays a number here: the clause says which, also above 6, where `Answer` has one name for all.
#[tactic(auto, unfolding(guarantee::specs::Answers::kind_of))]
pub fn kind(bits: u32) -> usize
    ensures { result ≡ kind_of bits }
{
    (bits / 16777216) as usize
}

#[tactic(auto, unfolding(crate::specs::Printed::refusal_of))]
fn refusal(bits: u32) -> usize
    ensures { result ≡ refusal_of bits }
{
    (bits / 65536 % 256) as usize
}

#[tactic(auto, unfolding(guarantee::specs::Answers::place_of))]
pub fn place(bits: u32) -> usize
    ensures { result ≡ place_of bits }
{
    (bits % 65536) as usize
}

impl From<u32> for Answer {
    ghost from_gives = { λ bits answer. answer ≡ answer_of (kind_of bits) };

    #[tactic(auto, unfolding(crate::specs::Printed::answer_of))]
    fn from(bits: u32) -> Answer {
        match kind(bits) {
            0 => Answer::Refused,
            1 => Answer::Request,
            2 => Answer::Return,
            3 => Answer::Wait,
            4 => Answer::Flown,
            5 => Answer::CalledOff,
            _ => Answer::Accepted,
        }
    }
}

impl Answer {
    // The letter that its line begins with. An accepted call has no line.
    fn letter(self) -> Option<u8>
        ensures { result ≡ letter_of self }
    {
        match self {
            Answer::Refused => Some(b'X'),
            Answer::Request => Some(b'Q'),
            Answer::Return => Some(b'U'),
            Answer::Wait => Some(b'W'),
            Answer::Flown => Some(b'E'),
            Answer::CalledOff => Some(b'O'),
            Answer::Accepted => None,
        }
    }
}

// ---- printing

// Writes a refusal, its place in six columns, at the front, and gives the length.
pub fn write_refusal(buf: &mut [u8], refusal: usize, place: usize) -> usize
    requires { 12 ≤ length buf.old }
    ensures size { result ≡ length (refusal_text refusal place) }
    ensures text { buf.new ≡ sets buf.old 0 (refusal_text refusal place) }
{
    buf[0] = b'X';
    decimal::write_field(&mut buf[1..5], refusal);
    decimal::write_field(&mut buf[5..11], place);
    buf[11] = b'\n';
    12
}

// Writes what is printed of an answer at the front, and gives the length. Of an accepted call nothing is printed.
#[tactic(auto, unfolding(crate::specs::Printed::printed_text))]
pub fn write_answer(buf: &mut [u8], bits: u32) -> usize
    requires { 12 ≤ length buf.old }
    ensures size { result ≡ length (printed_text bits) }
    ensures text { buf.new ≡ sets buf.old 0 (printed_text bits) }
{
    let answer = Answer::from(bits);
    if answer == Answer::Refused {
        return write_refusal(buf, refusal(bits), place(bits));
    }
    match answer.letter() {
        Some(letter) => event_lines::write_line(buf, letter, place(bits)),
        None => 0,
    }
}

// ---- going on

// What the drill does after an answer. After a reply that does not fit, refusal 9, it goes on.
#[tactic(auto, unfolding(crate::specs::Steps::step_of))]
pub fn after_answer(bits: u32) -> Step
    ensures { result ≡ step_of bits }
{
    match Answer::from(bits) {
        Answer::Refused if refusal(bits) == 9 => Step::ReadReply,
        Answer::Refused | Answer::Flown | Answer::CalledOff => Step::Stop,
        Answer::Wait => Step::ReadReply,
        Answer::Request | Answer::Return | Answer::Accepted => Step::TakeOrder,
    }
}
