// Writes the sheet of a plan record into a lent buffer.
#![tactic(auto)]

ghost use Rattle.std.specs.Prelude.{◌≡◌, ◌≤◌, length};
ghost use Rattle.std.proofs.lemmas.List.Edits.{sets};
ghost use Rattle.plan.specs.Limits.{most_bookings, most_links, most_ways};
ghost use Rattle.sheet.specs.Text.{sheet_text, sheet_length};
ghost use Rattle.writer.specs.Written.{write_fault, write_refusal, fine_answer, left_by, written_of, leaves};

use plan::{Plan, RecordFault};

// Why a sheet is not written: its record is refused for a count, or for an entry; or the buffer is too short.
#[derive(Clone, Copy, PartialEq, Eq, Debug)]
pub enum WriteFault {
    Count,
    Sequence,
    Short,
}

impl WriteFault {
    // The number of the refusal, whose place is 0.
    pub fn refusal(self) -> u32
        ensures { result ≡ write_refusal self }
    {
        match self {
            WriteFault::Count => 2,
            WriteFault::Sequence => 3,
            WriteFault::Short => 10,
        }
    }
}

impl From<RecordFault> for WriteFault {
    ghost from_gives = { λ e w. w ≡ write_fault e };

    fn from(e: RecordFault) -> WriteFault {
        match e {
            RecordFault::Count => WriteFault::Count,
            RecordFault::Sequence => WriteFault::Sequence,
        }
    }
}

// How many bytes the sheet of p has.
// The bounds are clauses and no type: a record may hold any counts, `write_sheet` judges it, and docs/RULES.md names `put_sheet`, which asks for them.
pub fn sheet_size(p: &Plan) -> usize
    requires { (p.now.n ≤ most_bookings) × (p.now.m ≤ most_links) × (p.now.a ≤ most_ways) }
    ensures { result ≡ sheet_length p.now }
{
    lines::ways_place(p.n, p.m) + ways::ways_size(&p.way[..p.a])
}

// Writes the lines of p at the front of a buffer that has room for them.
#[tactic(auto, unfolding(sheet::specs::Text::sheet_length))]
pub fn write_lines(buf: &mut [u8], p: &Plan)
    requires { (p.now.n ≤ most_bookings) × (p.now.m ≤ most_links) × (p.now.a ≤ most_ways) × (sheet_length p.now ≤ length buf.old) }
    ensures { buf.new ≡ sets buf.old 0 (sheet_text p.now) }
{
    line_writer::write_head(buf, p.n, p.m, p.a, p.limit);
    line_writer::write_bookings(&mut buf[lines::HEAD_BYTES..], p.n, &p.kind, &p.desk);
    line_writer::write_links(&mut buf[lines::links_place(p.n)..], p.m, &p.from, &p.to);
    ways::write_ways(buf, lines::ways_place(p.n, p.m), &p.way[..p.a]);
}

// Writes the sheet of a record that is fine, if it fits.
fn write_fine(buf: &mut [u8], p: &Plan) -> Result<usize, WriteFault>
    requires { (p.now.n ≤ most_bookings) × (p.now.m ≤ most_links) × (p.now.a ≤ most_ways) }
    ensures answer { result ≡ fine_answer p.now (length buf.old) }
    ensures left { buf.new ≡ left_by (fine_answer p.now (length buf.old)) p.now buf.old }
{
    let need = sheet_size(p);
    if buf.len() < need {
        return Err(WriteFault::Short);
    }
    write_lines(buf, p);
    Ok(need)
}

// Judges a record, and writes its sheet at the front of a lent buffer: gives the length of the sheet. Where none is given, every byte is left
// as it was.
pub fn write_sheet(buf: &mut [u8], p: &Plan) -> Result<usize, WriteFault>
    ensures answer { result ≡ written_of p.now (length buf.old) }
    ensures left { buf.new ≡ leaves p.now buf.old }
{
    plan::judge(p)?;
    write_fine(buf, p)
}
