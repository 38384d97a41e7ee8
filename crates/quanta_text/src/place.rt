// Line and column of an offset.
ghost use Rattle.std.specs.Prelude.{◌≡◌};
ghost use Rattle.quanta_text.specs.Places.{place_of};

// Both counted from 1; 0 and 0 where there is no such place.
#[derive(Clone, Copy)]
pub struct LineColumn {
    pub line: usize,
    pub column: usize,
}

// Line is 1 plus the LFs before the offset, column 1 plus the bytes since the last LF; above the source's length 0 and 0.
pub fn place(src: &[u8], offset: usize) -> LineColumn
    ensures { result ≡ place_of src.now offset }
{
    if src.len() < offset {
        return LineColumn { line: 0, column: 0 };
    }
    let mut feeds = 0;
    let mut since = 0;
    for c in &src[..offset] {
        if *c == b'\n' {
            feeds += 1;
            since = 0;
        } else {
            since += 1;
        }
    }
    LineColumn {
        line: feeds + 1,
        column: since + 1,
    }
}
