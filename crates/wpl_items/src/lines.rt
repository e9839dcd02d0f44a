//! The lines of a plan text: its header, its rows and the blank lines at its end.

ghost use Rattle.std.specs.Prelude.{◌≡◌, ◌≤◌, length, map, take, All};
ghost use Rattle.nav_text.specs.Spans.{text_of, IsInside};
ghost use Rattle.wpl_items.specs.Wpl.{is_header, is_blank_line, without_blank_end};

use nav_text::{Span, is_blank};

/// The first line of a plan text.
pub(crate) const HEADER: &[u8] = b"QGC WPL 110";

fn blank_line(line: &[u8]) -> bool
    ensures { result ≡ is_blank_line line.now }
{
    line.iter().all(|byte| is_blank(*byte))
}

/// Whether a line is the header, with or without blanks behind it.
pub(crate) fn header_line(line: &[u8]) -> bool
    ensures { result ≡ is_header line.now }
{
    line.starts_with(HEADER) && blank_line(&line[HEADER.len()..])
}

/// How many lines stand before the blank lines at the end.
pub(crate) fn rows_before_end(text: &[u8], lines: &[Span]) -> usize
    requires { All (IsInside text.now) lines.now }
    ensures count { result ≤ length lines.now }
    ensures rows { map (text_of text.now) (take result lines.now) ≡ without_blank_end (map (text_of text.now) lines.now) }
{
    let mut count = lines.len();
    while count > 0 {
        let last = lines[count - 1];
        if !blank_line(&text[last.from as usize..last.to as usize]) {
            return count;
        }
        count -= 1;
    }
    count
}
