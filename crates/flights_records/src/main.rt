// Writes records at the limits and one past them, reads what was written, and prints a line for each. What comes of them is known from the
// rules alone.
#![tactic(auto)]

ghost use Rattle.std.specs.Prelude.{◌≡◌, ◌^◌, ◌<◌};
ghost use Rattle.writer.specs.Written.{written_refusal};

use plan::Plan;
use writer::WriteFault;

// The number of a record's refusal, whose place is 0.
fn refusal_of_record(written: Result<usize, WriteFault>) -> u64
    ensures { result ≡ written_refusal written }
{
    written.err().map_or(0, |fault| fault.refusal() as u64)
}

// The length that writing gave, or 0.
fn length_of(written: Result<usize, WriteFault>) -> usize {
    written.unwrap_or(0)
}

// A record of 64 bookings with the first m of 512 links and a ways that have every booking.
fn full(m: usize, a: usize) -> Plan {
    let mut from = [0u8; 512];
    let mut to = [0u8; 512];
    // by index: it names both ends of a link, and they are worked out from it
    for i in 0..512 {
        from[i] = (i / 64 + 1) as u8;
        to[i] = (i % 64 + 1) as u8;
    }
    Plan {
        n: 64,
        m,
        a,
        limit: 64,
        kind: [b'C'; 64],
        desk: [1u8; 64],
        from,
        to,
        way: [u64::MAX; 16],
    }
}

// How many bytes the longest sheet has, and one fewer.
const LONGEST: usize = 10098;

const SHORTER: usize = LONGEST - 1;

// A buffer as long as the longest sheet.
fn room(b: u8) -> [u8; LONGEST] {
    [b; LONGEST]
}

// Writes what is read from a text, and prints the length, and 1 where it is the same text.
fn write_again(rt: &HostRuntime, text: &[u8]) {
    let mut again = room(0);
    let k = match sheet::read_sheet(text) {
        Ok(plan) => length_of(writer::write_sheet(&mut again, &plan)),
        Err(_) => 0,
    };
    let same = text == decimal::part(&again, 0, k);
    flight_lines::show(rt, b"  length, same", k as u64, same as u64);
}

// Writes a record, reads what was written, and writes what was read.
fn round_trip(rt: &HostRuntime, name: &[u8], m: usize, a: usize) {
    let mut buf = room(0);
    let k = length_of(writer::write_sheet(&mut buf, &full(m, a)));
    let text = decimal::part(&buf, 0, k);
    flight_lines::read(rt, name, text);
    write_again(rt, text);
}

// A record of n bookings whose desks have a limit, the first booking of kind k and at desk d, with all links and ways.
fn first_booking(n: usize, limit: usize, k: u8, d: u8) -> Plan {
    let mut p = full(512, 16);
    p.n = n;
    p.limit = limit;
    p.kind[0] = k;
    p.desk[0] = d;
    p
}

// Such a record of n bookings, the first of kind k.
fn first_kind(n: usize, k: u8) -> Plan {
    first_booking(n, 64, k, 1)
}

// Such a record of 64 bookings, the first at desk d.
fn first_desk(limit: usize, d: u8) -> Plan {
    first_booking(64, limit, b'C', d)
}

// Writes a record into a buffer of sevens, and prints the length and 1 where every byte is as it was.
fn write(rt: &HostRuntime, name: &[u8], buf: &mut [u8], p: &Plan) {
    let w = writer::write_sheet(buf, p);
    flight_lines::show(rt, name, refusal_of_record(w), 0);
    let kept = buf.iter().all(|b| *b == 7);
    flight_lines::show(rt, b"  length, kept", length_of(w) as u64, kept as u64);
}

// Into a buffer of N bytes.
fn write_into<const N: usize>(rt: &HostRuntime, name: &[u8], p: &Plan)
    requires { N < 2 ^ 63 }
{
    let mut buf = [7u8; N];
    write(rt, name, &mut buf, p);
}

// Records that differ in how many bookings they have, and in a kind.
fn write_kinds(rt: &HostRuntime) {
    write_into::<LONGEST>(rt, b"record of 64", &first_kind(64, b'C'));
    write_into::<LONGEST>(rt, b"record of 65", &first_kind(65, b'C'));
    write_into::<LONGEST>(rt, b"record with kind D", &first_kind(64, b'D'));
    write_into::<LONGEST>(rt, b"record with kind d", &first_kind(64, b'd'));
    write_into::<LONGEST>(rt, b"record with kind X", &first_kind(64, b'X'));
    write_into::<LONGEST>(rt, b"record of 65 with kind X", &first_kind(65, b'X'));
    write_into::<SHORTER>(rt, b"record of 64, too short", &first_kind(64, b'C'));
    write_into::<SHORTER>(rt, b"record of 65, too short", &first_kind(65, b'C'));
    write_into::<SHORTER>(rt, b"record with kind X, too short", &first_kind(64, b'X'));
}

// Records that differ in the limit, and in a desk.
fn write_desks(rt: &HostRuntime) {
    write_into::<LONGEST>(rt, b"record with limit 0", &first_desk(0, 1));
    write_into::<LONGEST>(rt, b"record with limit 64", &first_desk(64, 1));
    write_into::<LONGEST>(rt, b"record with limit 65", &first_desk(65, 1));
    write_into::<LONGEST>(rt, b"record with desk 0", &first_desk(64, 0));
    write_into::<LONGEST>(rt, b"record with desk 8", &first_desk(64, 8));
    write_into::<LONGEST>(rt, b"record with desk 9", &first_desk(64, 9));
    write_into::<LONGEST>(rt, b"record with limit 65 and desk 9", &first_desk(65, 9));
    write_into::<SHORTER>(rt, b"record with limit 65, too short", &first_desk(65, 1));
    write_into::<SHORTER>(rt, b"record with desk 9, too short", &first_desk(64, 9));
}

fn main(rt: HostRuntime) {
    round_trip(&rt, b"n 64", 0, 1);
    round_trip(&rt, b"m 512", 512, 1);
    round_trip(&rt, b"a 16", 0, 16);
    round_trip(&rt, b"longest sheet", 512, 16);
    write_kinds(&rt);
    write_desks(&rt);
}
