// UTF-8 by RFC 3629: the first offset where no well-formed sequence starts.
#![tactic(auto)]

ghost use Rattle.std.specs.Prelude.{◌≡◌, [], ◌∷◌, ◌<◌, ◌≤◌, ◌+◌, leb, cond, length, drop};
ghost use Rattle.utf8.specs.Utf8.{◌to◌, tail, utf8_3, utf8_4, fits, form_len, char_len, some_len, first_bad};
ghost use Rattle.utf8.specs.Block.{ascii, every};

// Whether a byte from low to high stands at i.
fn octet(s: &[u8], i: usize, low: u8, high: u8) -> bool
    ensures { result ≡ fits (low to high ∷ []) (drop i s.now) }
{
    match s.get(i) {
        Some(&c) => (low <= c) & (c <= high),
        None => false,
    }
}

// Whether a byte of the first range stands at i, and then one of the second.
fn two(s: &[u8], i: usize, low: u8, high: u8, low2: u8, high2: u8) -> bool
    requires { i < length s.now }
    ensures { result ≡ fits (low to high ∷ low2 to high2 ∷ []) (drop i s.now) }
{
    octet(s, i, low, high) && octet(s, i + 1, low2, high2)
}

// The same with one UTF8-tail behind them.
fn three(s: &[u8], i: usize, low: u8, high: u8, low2: u8, high2: u8) -> bool
    requires { i < length s.now }
    ensures { result ≡ fits (low to high ∷ low2 to high2 ∷ tail ∷ []) (drop i s.now) }
{
    two(s, i, low, high, low2, high2) && octet(s, i + 2, 0x80, 0xBF)
}

// The same with two behind them.
fn four(s: &[u8], i: usize, low: u8, high: u8, low2: u8, high2: u8) -> bool
    requires { i < length s.now }
    ensures { result ≡ fits (low to high ∷ low2 to high2 ∷ tail ∷ tail ∷ []) (drop i s.now) }
{
    three(s, i, low, high, low2, high2) && octet(s, i + 3, 0x80, 0xBF)
}

// Whether UTF8-3 stands at i.
#[tactic(auto, unfolding(crate::specs::Utf8::form_len))]
fn utf8_3(s: &[u8], i: usize) -> bool
    requires { i < length s.now }
    ensures { form_len utf8_3 (drop i s.now) ≡ cond result 3 0 }
{
    three(s, i, 0xE0, 0xE0, 0xA0, 0xBF)
        || three(s, i, 0xE1, 0xEC, 0x80, 0xBF)
        || three(s, i, 0xED, 0xED, 0x80, 0x9F)
        || three(s, i, 0xEE, 0xEF, 0x80, 0xBF)
}

// Whether UTF8-4 stands at i.
#[tactic(auto, unfolding(crate::specs::Utf8::form_len))]
fn utf8_4(s: &[u8], i: usize) -> bool
    requires { i < length s.now }
    ensures { form_len utf8_4 (drop i s.now) ≡ cond result 4 0 }
{
    four(s, i, 0xF0, 0xF0, 0x90, 0xBF)
        || four(s, i, 0xF1, 0xF3, 0x80, 0xBF)
        || four(s, i, 0xF4, 0xF4, 0x80, 0x8F)
}

// How many bytes the well-formed sequence at i has, where one starts.
#[tactic(auto, unfolding(crate::specs::Utf8::form_len, crate::specs::Utf8::some_len))]
fn char_len(s: &[u8], i: usize) -> Option<usize>
    requires { i < length s.now }
    ensures { result ≡ some_len (char_len s.now i) }
{
    if octet(s, i, 0x00, 0x7F) {
        return Some(1);
    }
    if two(s, i, 0xC2, 0xDF, 0x80, 0xBF) {
        return Some(2);
    }
    if utf8_3(s, i) {
        return Some(3);
    }
    utf8_4(s, i).then_some(4)
}

// Whether the 32 bytes from i on are ASCII. No way out of the loop, so that it becomes wide instructions.
fn ascii_block(s: &[u8], i: usize) -> bool
    requires { i + 32 ≤ length s.now }
    ensures { result ≡ every ascii 32 s.now i }
{
    let mut all = true;
    for c in &s[i..i + 32] {
        all &= *c <= 0x7F;
    }
    all
}

// Where the first byte stands at which no well-formed sequence starts. A block that is not all ASCII is read sequence by sequence.
pub fn first_bad(s: &[u8]) -> Option<usize>
    ensures { result ≡ first_bad s.now }
{
    let mut i = 0;
    let mut block = 0;
    while i < s.len() {
        if block <= i {
            block = i + 32;
            if block <= s.len() && ascii_block(s, i) {
                i = block;
                continue;
            }
        }
        let Some(n) = char_len(s, i) else {
            return Some(i);
        };
        i += n;
    }
    None
}
