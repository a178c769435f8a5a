// What the programs read and print: files of the folder that a program runs in and standard input, read into lent bytes, and texts for standard
// output. A call that fails is told on standard error at once, in the caller's words and with the system's reason.
#![tactic(auto)]

ghost use Rattle.std.specs.Prelude.{◌≡◌, ◌↔◌, ◌≤◌, IsTrue, length, take, drop};
ghost use Rattle.std.specs.IoError.{error_kind};
ghost use Rattle.std.specs.Io.{ReadsAtMost};
ghost use Rattle.std.specs.Io.KnownBytes.{ReadConsumes};
ghost use Rattle.files.specs.Reads.{GotBytes, needed_of};
ghost use Rattle.files.specs.declared.Unread.TheVariants.{Failed};

use arrayvec::ArrayString;
use std::fmt::Write as Format;
use std::fs::File;
use std::io;
use std::io::{Error, ErrorKind, Read, Write};

// One byte more than the longest plan sheet: enough to refuse a longer file.
pub const SHEET_BYTES: usize = 10099;

// The system's number for a file that is missing.
const MISSING: i32 = 2;

// So often a read that a signal has interrupted is made again.
const TRIES: usize = 1000;

// What could not be read or written; why was told on standard error.
#[derive(Clone, Copy, PartialEq, Eq, Debug)]
pub struct Told;

// Why nothing is given of a file: it is missing, or it cannot be read, which was told.
#[derive(Clone, Copy, PartialEq, Eq, Debug)]
pub enum Unread {
    Missing,
    Failed,
}

impl From<Told> for Unread {
    ghost from_gives = { λ _ why. why ≡ Failed };

    fn from(_told: Told) -> Unread {
        Unread::Failed
    }
}

// Reads once, behind what was read before. A read that fails is not the end of the input, which is told by no byte.
fn read_on<R: Read>(from: &mut R, bytes: &mut [u8], done: usize) -> io::Result<usize>
    requires { done ≤ length bytes.old }
    ensures fits { ReadsAtMost result (drop done bytes.new) }
    ensures front { take done bytes.new ≡ take done bytes.old }
    ensures brings { ReadConsumes (R.remaining from.old) (R.remaining from.new) result (drop done bytes.new) }
{
    from.read(&mut bytes[done..])
}

// The system's words alone: an error is written with its number behind them.
fn reason(text: &str) -> &str {
    text.split_once(" (os error ")
        .map_or(text, |(words, _)| words)
}

// Writes the whole text, or stops at the first write that fails or takes nothing. The library's write_all makes an interrupted write again, and
// the programs tell it.
fn write_whole<W: Write>(to: &mut W, text: &[u8]) -> io::Result<()> {
    let mut done = 0;
    while done < text.len() {
        let n = to.write(&text[done..])?;
        if n == 0 {
            return Err(Error::from(ErrorKind::WriteZero));
        }
        done += n;
    }
    Ok(())
}

// Writes a line to standard error: what failed, as the caller names it, and the system's reason. Where that fails too, nothing is left to do.
fn tell(rt: &HostRuntime, what: &[u8], why: Error) -> Told {
    let mut text = ArrayString::<300>::new();
    let _ = write!(text, "{why}");
    let mut told = rt.stderr();
    for part in [what, b": ", reason(text.as_str()).as_bytes(), b"\n"] {
        let _ = write_whole(&mut told, part);
    }
    Told
}

// Whether a signal interrupted a read. Only such a one is made again.
fn is_interrupted(why: &Error) -> bool
    ensures { IsTrue result ↔ (error_kind why.now ≡ ErrorKind.Interrupted) }
{
    why.kind() == ErrorKind::Interrupted
}

// Reads from an open file or standard input until there is no more room, the input ends or a read fails, and gives how many bytes it read. A failing
// read is told as `what`, and what came before it is not given. Where it is known what there is to read, what it gives is that, in turn, and a count
// that leaves room is the end's. No method of std does this into lent bytes: read_exact gives no count at the end, and read_to_end fills a Vec.
pub fn read_open<R: Read>(
    rt: &HostRuntime,
    what: &[u8],
    from: &mut R,
    bytes: &mut [u8],
) -> Result<usize, Told>
    ensures counts { ReadsAtMost result bytes.new }
    ensures bytes { GotBytes result (R.remaining from.old) (R.remaining from.new) bytes.new }
{
    let mut done = 0;
    let mut tries = TRIES;
    while done < bytes.len() {
        match read_on(from, bytes, done) {
            Ok(0) => return Ok(done),
            Ok(n) => done += n,
            Err(why) if tries > 0 && is_interrupted(&why) => tries -= 1,
            Err(why) => return Err(tell(rt, what, why)),
        }
    }
    Ok(done)
}

// Opens a file. The library takes names of text alone; ours stay bytes, since a `&str` would ask more of the callers.
fn open(rt: &HostRuntime, name: &[u8]) -> io::Result<File> {
    let name = str::from_utf8(name).map_err(|_| Error::from(ErrorKind::InvalidInput))?;
    File::open(rt, name)
}

// Reads a file from its beginning, as much of it as there is room for. That it cannot be read is told as `what`; that it is missing is not.
pub fn read_file(
    rt: &HostRuntime,
    what: &[u8],
    name: &[u8],
    bytes: &mut [u8],
) -> Result<usize, Unread>
    ensures { ReadsAtMost result bytes.new }
{
    match open(rt, name) {
        Ok(mut file) => Ok(read_open(rt, what, &mut file, bytes)?),
        Err(why) if why.kind() == ErrorKind::NotFound => Err(Unread::Missing),
        Err(why) => Err(tell(rt, what, why).into()),
    }
}

// A file that has to be there: a missing one is no empty one.
fn as_needed(found: Result<usize, Unread>) -> Result<usize, Told>
    ensures { result ≡ needed_of found }
{
    found.map_err(|_| Told)
}

// Reads a file that has to be there: that it is missing is told too. It gives a count and not the part, so that its clause can speak of all the bytes.
pub fn read_needed(
    rt: &HostRuntime,
    what: &[u8],
    name: &[u8],
    bytes: &mut [u8],
) -> Result<usize, Told>
    ensures { ReadsAtMost result bytes.new }
{
    let found = read_file(rt, what, name, bytes);
    if found == Err(Unread::Missing) {
        tell(rt, what, Error::from_raw_os_error(MISSING));
    }
    as_needed(found)
}

// Prints on standard output, or tells as `what` that it could not be written.
pub fn print(rt: &HostRuntime, what: &[u8], text: &[u8]) -> Result<(), Told> {
    write_whole(&mut rt.stdout(), text).map_err(|why| tell(rt, what, why))
}
