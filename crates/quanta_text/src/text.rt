// The text of a token.
ghost use Rattle.std.specs.Prelude.{◌≡◌, ◌≤◌};
ghost use Rattle.quanta_text.specs.Texts.{front, back, text_of};

use quanta_token::token::{DATE, STR};

// How many bytes are taken off before a token's text: a quote of a Str, the `@` of a Date.
#[tactic(auto, unfolding(crate::specs::Texts::front))]
fn front_of(kind: u32) -> usize
    ensures value { result ≡ front kind }
    ensures few { result ≤ 1 }
{
    if kind == STR || kind == DATE { 1 } else { 0 }
}

// How many are taken off behind it: a quote of a Str.
#[tactic(auto, unfolding(crate::specs::Texts::back))]
fn back_of(kind: u32) -> usize
    ensures value { result ≡ back kind }
    ensures few { result ≤ 1 }
{
    if kind == STR { 1 } else { 0 }
}

// The part of the source from `start` to `end`, without the quotes of a Str and without the `@` of a Date; empty if the start is past
// the end, the end past the source, or the span too short for what is taken off.
#[tactic(auto, unfolding(crate::specs::Texts::text_of))]
pub fn text(src: &[u8], kind: u32, start: usize, end: usize) -> &[u8]
    ensures { result.now ≡ text_of src.now kind start end }
{
    let front = front_of(kind);
    let back = back_of(kind);
    if end < start || src.len() < end || end - start < front + back {
        return &[];
    }
    &src[start + front..end - back]
}
