//! The data of `COPY .. FROM STDIN` in a script.
ghost use Rattle.std.specs.Prelude.{◌≡◌, ◌≤◌, length, unwrap_or};
ghost use Rattle.squawk_split.specs.CopyData.{end_marker_len, copy_data_len};

// The length in bytes of the end-of-data marker that begins the text, its line end included, or 0
// if the text begins with another line.
fn end_marker_len(text: &[u8]) -> usize
    ensures { result ≡ unwrap_or (end_marker_len text.now) 0 }
{
    if text.len() < 2 || text[0] != b'\\' || text[1] != b'.' {
        return 0;
    }
    if text.len() == 2 {
        return 2;
    }
    if text[2] == b'\n' {
        return 3;
    }
    if text.len() > 3 && text[2] == b'\r' && text[3] == b'\n' {
        return 4;
    }
    0
}

/// Returns the length in bytes of the COPY data that begins `text`, the text directly after the
/// semicolon of a `COPY .. FROM STDIN`.
///
/// The data ends with the first end-of-data marker, which is part of it: a line that is exactly
/// `\.` (PostgreSQL's manual, COPY, "Text Format"). The line ends with LF, with CR and LF, or with
/// the text. A marker begins directly after an LF, so the rest of the semicolon's line is never
/// one. Without a marker, the data is the whole text.
pub fn copy_data_len(text: &[u8]) -> usize
    ensures len { result ≡ copy_data_len text.now }
    ensures within { result ≤ length text.now }
{
    let mut at = 0;
    while at < text.len() {
        if text[at] == b'\n' {
            let marker = end_marker_len(&text[at + 1..]);
            if marker > 0 {
                return at + 1 + marker;
            }
        }
        at += 1;
    }
    at
}
