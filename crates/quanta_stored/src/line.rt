// A line of a stored list: its fields, the numbers and the bytes that they stand for.
ghost use Rattle.std.specs.Prelude.{◌≡◌, ◌+◌, ◌*◌, ◌<◌, ◌≤◌, length, IfSome};
ghost use Rattle.quanta_stored.specs.Lines.{before, behind, field_of, digit_of, with_digit, number_of, digits_of, times_of, is_dash, size_of, byte_at, Filled};

const BLANK: u8 = b' ';

// The bytes before the first b.
pub fn find(s: &[u8], b: u8) -> usize
    ensures { (result ≡ before b s.now) × (result ≤ length s.now) }
{
    s.iter().position(|x| *x == b).unwrap_or(s.len())
}

// What stands behind so many blanks.
pub fn rest(line: &[u8], no: usize) -> &[u8]
    ensures { result.now ≡ behind no line.now }
{
    let mut rest = line;
    for _ in 0..no {
        let end = find(rest, BLANK);
        if end == rest.len() {
            return &[];
        }
        rest = &rest[end + 1..];
    }
    rest
}

// The field behind so many blanks.
pub fn field(line: &[u8], no: usize) -> &[u8]
    ensures { result.now ≡ field_of no line.now }
{
    let from = rest(line, no);
    &from[..find(from, BLANK)]
}

// What a digit stands for.
#[tactic(auto, using(crate::proofs::Laws::digit_told))]
fn digit(b: u8) -> Option<u8>
    ensures value { result ≡ digit_of b }
    ensures small { IfSome result (λ d. d < 16) }
{
    match b {
        b'0'..=b'9' => Some(b - b'0'),
        b'a'..=b'f' => Some(b - b'a' + 10),
        _ => None,
    }
}

// A number with one digit more.
#[tactic(auto, unfolding(crate::specs::Lines::with_digit))]
fn with_digit(value: u32, b: u8) -> Option<u32>
    ensures { result ≡ with_digit value (digit_of b) }
{
    let d = digit(b)?;
    if d >= 10 {
        return None;
    }
    value.checked_mul(10)?.checked_add(u32::from(d))
}

// The number that a field is.
#[tactic(auto, using(crate::proofs::Laws::number_told))]
pub fn number(part: &[u8]) -> Option<u32>
    ensures { result ≡ number_of part.now }
{
    if part.is_empty() {
        return None;
    }
    let mut value = 0;
    for b in part {
        value = with_digit(value, *b)?;
    }
    Some(value)
}

// The hexadecimal digits in front.
fn digits(part: &[u8]) -> usize
    ensures { (result ≡ digits_of part.now) × (result ≤ length part.now) }
{
    part.iter()
        .position(|b| digit(*b).is_none())
        .unwrap_or(part.len())
}

// How often the digits in front are taken.
#[tactic(auto, using(crate::proofs::Laws::times_told))]
fn times(part: &[u8]) -> Option<u32>
    ensures { result ≡ times_of part.now }
{
    let n = digits(part);
    if n == part.len() {
        Some(1)
    } else if part[n] == b'*' {
        number(&part[n + 1..])
    } else {
        None
    }
}

// A field that is written for no bytes.
#[tactic(auto, using(crate::proofs::Laws::none_told))]
fn is_dash(part: &[u8]) -> bool
    ensures { result ≡ is_dash part.now }
{
    part.len() == 1 && part[0] == b'-'
}

// How many bytes a field of at most 65,535 digits stands for.
#[tactic(auto, using(crate::proofs::Laws::size_told))]
pub fn size(part: &[u8]) -> Option<usize>
    ensures { result ≡ size_of part.now }
{
    if part.len() > 65535 {
        return None;
    }
    if is_dash(part) {
        return Some(0);
    }
    let n = digits(part);
    if n == 0 || n % 2 != 0 {
        return None;
    }
    let times = times(part)?;
    Some(n / 2 * times as usize)
}

// The byte that two digits stand for.
#[tactic(auto, using(crate::proofs::Laws::digits_le))]
fn byte(part: &[u8], j: usize) -> u8
    requires { 2 * j + 1 < digits_of part.now }
    ensures { result ≡ byte_at part.now j }
{
    let high = digit(part[2 * j]).unwrap();
    let low = digit(part[2 * j + 1]).unwrap();
    high * 16 + low
}

// Fills a buffer with the bytes that a field stands for, again and again.
pub fn fill(part: &[u8], out: &mut [u8])
    ensures { 1 < digits_of part.now → Filled part.now (length out.old) out.new }
{
    let unit = digits(part) / 2;
    if unit == 0 {
        return;
    }
    for (k, place) in out.iter_mut().enumerate() {
        *place = byte(part, k % unit);
    }
}
