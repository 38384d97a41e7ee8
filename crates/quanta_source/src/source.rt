// Copyright 2026 Quantova Inc
// SPDX-License-Identifier: Apache-2.0 OR MIT

// The pass over a whole source before its tokens are read: a CR without LF, and the barred characters.
ghost use Rattle.std.specs.Prelude.{◌≡◌, true, ◌+◌, ◌≤◌, ◌<◌, length, get_or};
ghost use Rattle.quanta_source.specs.Source.{bare_at, barred_at, checked};
ghost use Rattle.quanta_source.specs.Tests.{is_lead, is_bare, is_barred, is_mark, FineIn};

// A CR without LF, or a barred character, and the offset of its first byte.
#[derive(Clone, Copy, Debug, PartialEq, Eq)]
pub enum Fault {
    CarriageReturn(usize),
    Barred(usize),
}

// The byte at i, 0 past the end.
fn peek(src: &[u8], i: usize) -> u8
    ensures { result ≡ get_or src.now i 0 }
{
    src.get(i).copied().unwrap_or(0)
}

// A CR without LF, by a byte c and the byte d after it.
fn is_bare(c: u8, d: u8) -> bool
    ensures { result ≡ is_bare c d }
{
    (c == 0x0D) & (d != 0x0A)
}

// The byte order mark, FEFF.
fn is_mark(c: u8, d: u8, e: u8) -> bool
    ensures { result ≡ is_mark c d e }
{
    (c == 0xEF) & (d == 0xBB) & (e == 0xBF)
}

// A barred character other than FEFF.
fn is_barred(c: u8, d: u8, e: u8) -> bool
    ensures { result ≡ is_barred c d e }
{
    ((c == 0xC2) & (d == 0x85))
        | ((c == 0xC2) & (d == 0xAD))
        | ((c == 0xD8) & (d == 0x9C))
        | ((c == 0xE1) & (d == 0xA0) & (e == 0x8E))
        | ((c == 0xE2) & (d == 0x80) & ((0x8B <= e) & (e <= 0x8F)))
        | ((c == 0xE2) & (d == 0x80) & ((0xA8 <= e) & (e <= 0xAE)))
        | ((c == 0xE2) & (d == 0x81) & ((0xA0 <= e) & (e <= 0xA4)))
        | ((c == 0xE2) & (d == 0x81) & ((0xA6 <= e) & (e <= 0xAF)))
        | ((c == 0xEF) & (d == 0xBF) & ((0xB9 <= e) & (e <= 0xBB)))
}

// A byte that a barred character begins with.
fn is_lead(c: u8) -> bool
    ensures { result ≡ is_lead c }
{
    (c == 0xC2) | (c == 0xD8) | (c == 0xE1) | (c == 0xE2) | (c == 0xEF)
}

// Whether the 32 bytes from `at` hold no CR without LF and no byte that a barred character begins with. There is no way out of the
// loop, so that it is compiled to wide instructions.
fn quiet_block(src: &[u8], at: usize) -> bool
    requires { at + 34 ≤ length src.now }
    ensures { result ≡ true → FineIn src.now at (at + 32) }
{
    let mut none = true;
    for k in 0..32 {
        let c = src[at + k];
        none &= !(is_bare(c, src[at + k + 1]) | is_lead(c));
    }
    none
}

// Whether nothing at fault starts among the 32 bytes from `at`, FEFF wherever it stands.
fn clean_block(src: &[u8], at: usize) -> bool
    requires { at + 34 ≤ length src.now }
    ensures { result ≡ true → FineIn src.now at (at + 32) }
{
    let mut none = true;
    for k in 0..32 {
        let c = src[at + k];
        let d = src[at + k + 1];
        let e = src[at + k + 2];
        none &= !(is_bare(c, d) | is_barred(c, d, e) | is_mark(c, d, e));
    }
    none
}

// The quiet test first: it is the quicker one, and nearly every text passes it.
fn passes(src: &[u8], at: usize) -> bool
    requires { at + 34 ≤ length src.now }
    ensures { result ≡ true → FineIn src.now at (at + 32) }
{
    quiet_block(src, at) || clean_block(src, at)
}

// A CR without LF at i.
fn bare_at(src: &[u8], i: usize) -> bool
    requires { i < length src.now }
    ensures { result ≡ bare_at src.now i }
{
    is_bare(peek(src, i), peek(src, i + 1))
}

// A barred character at i.
fn barred_at(src: &[u8], i: usize) -> bool
    requires { i < length src.now }
    ensures { result ≡ barred_at src.now i }
{
    let c = peek(src, i);
    let d = peek(src, i + 1);
    let e = peek(src, i + 2);
    is_barred(c, d, e) | (is_mark(c, d, e) & (0 < i))
}

// Past offset 0, where FEFF is not barred, if nothing at fault stands there.
fn past_first(src: &[u8]) -> usize
    ensures within { result ≤ length src.now }
    ensures fine { FineIn src.now 0 result }
{
    if src.is_empty() || bare_at(src, 0) || barred_at(src, 0) {
        return 0;
    }
    1
}

// Past the blocks at the front that are clean: what is left is shorter than a block, or a block with something at fault.
fn skip_blocks(src: &[u8]) -> usize
    ensures within { result ≤ length src.now }
    ensures fine { FineIn src.now 0 result }
{
    let mut at = past_first(src);
    while 34 <= src.len() - at {
        if !passes(src, at) {
            return at;
        }
        at += 32;
    }
    at
}

// One pass over the whole source: the first byte that is a CR without LF or begins a barred character.
pub fn check_source(src: &[u8]) -> Result<(), Fault>
    ensures { result ≡ checked src.now }
{
    for i in skip_blocks(src)..src.len() {
        if bare_at(src, i) {
            return Err(Fault::CarriageReturn(i));
        }
        if barred_at(src, i) {
            return Err(Fault::Barred(i));
        }
    }
    Ok(())
}
