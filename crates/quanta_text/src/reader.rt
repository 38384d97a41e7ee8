// A small reader over a source, by which the text of a token is read.
ghost use Rattle.std.specs.Prelude.{◌≡◌};
ghost use Rattle.quanta_text.specs.Texts.{text_of};

use crate::text::text;

#[derive(Clone, Copy)]
pub struct Reader<'a> {
    pub src: &'a [u8],
}

// The text of a token: its part of the source that is read.
pub fn token_text<'a>(reader: Reader<'a>, kind: u32, start: usize, end: usize) -> &'a [u8]
    ensures { result.now ≡ text_of reader.entry.src.now kind start end }
{
    text(reader.src, kind, start, end)
}

// The same from a plain slice, so that a caller needs no reader of its own.
pub fn text_of(src: &[u8], kind: u32, start: usize, end: usize) -> &[u8]
    ensures { result.now ≡ text_of src.now kind start end }
{
    token_text(Reader { src }, kind, start, end)
}
