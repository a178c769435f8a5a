// A decimal number in columns of a given width: read from a part of a text, written into a lent buffer. With it the parts of a
// text, and the copying of bytes, that readers and writers of lines need.
#![tactic(auto)]

ghost use Rattle.std.specs.Prelude.{◌≡◌, false, ◌&&◌, ◌+◌, ◌-◌, ◌%◌, ◌^◌, ◌≤◌, ◌<◌, eqb, leb, ltb, length, get_or, take, drop};
ghost use Rattle.std.proofs.lemmas.List.Edits.{sets};
ghost use Rattle.bounded.specs.Bounded.{first};
ghost use Rattle.decimal.specs.Decimal.{begun, column, columns, same_bytes, spaces, unread_of, field_of, field_at};

// What a number field holds where it holds no number.
#[derive(Clone, Copy, PartialEq, Eq, Debug)]
pub enum NoNumber {
    Blank,
    Fault,
}

// The w bytes of s from at on, or those of them that s has. So a text that ends early is a part of another length.
pub fn part(s: &[u8], at: usize, w: usize) -> &[u8]
    ensures { result.now ≡ take w (drop at s.now) }
{
    if at <= s.len() {
        if w <= s.len() - at {
            &s[at..at + w]
        } else {
            &s[at..]
        }
    } else {
        &s[..0]
    }
}

// Whether two slices hold the same bytes.
// It is `==`, and stays as a public function with its clause.
pub fn equal(a: &[u8], b: &[u8]) -> bool
    ensures { result ≡ same_bytes a.now b.now }
{
    a == b
}

// The value of a digit's byte.
fn digit(b: u8) -> usize
    ensures { result ≡ b % 16 }
{
    (b % 16) as usize
}

// Where the number begins: after the spaces in front, in the last column at the latest.
fn begin(s: &[u8]) -> usize
    ensures within { result ≤ length s.now }
    ensures place { result ≡ first (begun s.now) (length s.now - 1) }
{
    let last = s.len().saturating_sub(1);
    s.iter().take(last).position(|b| *b != b' ').unwrap_or(last)
}

// Whether a number that begins at i begins with a zero and goes on.
fn leads_zero(s: &[u8], i: usize) -> bool
    requires { i ≤ length s.now }
    ensures { result ≡ (ltb (i + 1) (length s.now) && eqb (get_or s.now i 0) 48) }
{
    i + 1 < s.len() && s[i] == b'0'
}

// What columns hold that are no number's.
fn unread(s: &[u8]) -> NoNumber
    ensures { result ≡ unread_of (length s.now) s.now }
{
    if s.iter().all(|b| *b == b' ') {
        NoNumber::Blank
    } else {
        NoNumber::Fault
    }
}

// Reads a field of w columns: spaces, then digits, and no zero in front of others; or spaces alone.
pub fn read_field(s: &[u8], w: usize) -> Result<usize, NoNumber>
    requires { w ≤ 12 }
    ensures { result ≡ field_of w s.now }
{
    if s.len() != w {
        return Err(NoNumber::Fault);
    }
    let i = begin(s);
    if leads_zero(s, i) {
        return Err(NoNumber::Fault);
    }
    let mut x = 0;
    for &b in &s[i..] {
        if !b.is_ascii_digit() {
            return Err(unread(s));
        }
        x = x * 10 + digit(b);
    }
    Ok(x)
}

// Reads the field of w columns that starts at at.
pub fn field_at(line: &[u8], at: usize, w: usize) -> Result<usize, NoNumber>
    requires { w ≤ 12 }
    ensures { result ≡ field_at w at line.now }
{
    read_field(part(line, at, w), w)
}

// The byte in the column with which the number q ends.
#[tactic(auto, unfolding(crate::specs::Decimal::column))]
fn shown(q: usize, last: bool) -> u8
    ensures { result ≡ column last q }
{
    if q == 0 && !last {
        b' '
    } else {
        48 + (q % 10) as u8
    }
}

// Writes the columns of x over a field, the last column first.
// By index: it says which column is the last.
pub fn write_field(field: &mut [u8], x: usize)
    ensures { field.new ≡ columns (length field.old) x }
{
    let w = field.len();
    let mut q = x;
    for i in (0..w).rev() {
        field[i] = shown(q, i + 1 == w);
        q /= 10;
    }
}

// Writes spaces over a field. A loop: `fill` of a few columns is stored in other pieces than its neighbours, by a constant more.
fn write_spaces(field: &mut [u8])
    ensures { field.new ≡ spaces (length field.old) }
{
    for byte in field.iter_mut() {
        *byte = b' ';
    }
}

// Writes a number that fits its field: spaces, and over them its digits, the last one first. Its turns depend on the number alone, not on the
// columns, which a `for` would go through: that loop of `write_field` over twelve columns becomes twelve divisions, by as many constants.
pub fn write_number(field: &mut [u8], x: usize)
    requires { (x < 10 ^ length field.old) × (1 ≤ length field.old) }
    ensures { field.new ≡ columns (length field.old) x }
{
    let mut i = field.len() - 1;
    write_spaces(field);
    field[i] = 48 + (x % 10) as u8;
    let mut rest = x / 10;
    while rest > 0 {
        i -= 1;
        field[i] = 48 + (rest % 10) as u8;
        rest /= 10;
    }
}

// Copies src into buf from at on.
pub fn copy_in(buf: &mut [u8], at: usize, src: &[u8])
    requires { at + length src.now ≤ length buf.old }
    ensures { buf.new ≡ sets buf.old at src.now }
{
    buf[at..at + src.len()].copy_from_slice(src);
}
