// Where a scan of a line's bytes stops.
ghost use Rattle.std.specs.Prelude.{◌≡◌};
ghost use Rattle.schedule.specs.Scans.{blank, stops, Start, Gap, Quote, Found};

// Whether a byte is a space or a tab.
fn is_blank(byte: u8) -> bool
    ensures { result ≡ blank byte }
{
    matches!(byte, b' ' | b'\t')
}

// Whether a token ends before this byte: a blank, or the start of a comment.
pub(crate) fn ends_token(byte: u8) -> bool
    ensures { result ≡ stops Gap byte }
{
    matches!(byte, b' ' | b'\t' | b'#')
}

// The place of the first byte that is no blank, or the line's end. By bytes, since cutting blanks off as characters takes
// longer where a text is mostly blanks.
pub(crate) fn find_start(line: &[u8]) -> usize
    ensures { Found Start line.now 0 result }
{
    line.iter()
        .position(|b| !is_blank(*b))
        .unwrap_or(line.len())
}

// The place of the first byte that ends a token, or the line's end.
pub(crate) fn find_gap(line: &[u8]) -> usize
    ensures { Found Gap line.now 0 result }
{
    line.iter()
        .position(|b| ends_token(*b))
        .unwrap_or(line.len())
}

// The place of the first quote, or the line's end.
pub(crate) fn find_quote(line: &[u8]) -> usize
    ensures { Found Quote line.now 0 result }
{
    line.iter().position(|b| *b == b'"').unwrap_or(line.len())
}
