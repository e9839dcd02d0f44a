//! A text made of lines.

ghost use Rattle.std.specs.Prelude.{◌≡◌, map, IfOk, All};
ghost use Rattle.first_text.specs.Lines.{lines_of};
ghost use Rattle.first_text.specs.Joined.{text_of_lines, IsPlainLine};

use std::alloc::{AllocError, Global};

/// The lines as one text, each ended by a line feed.
pub fn join_text(alloc: Global, lines: &[Vec<u8>]) -> Result<Vec<u8>, AllocError>
    ensures text { IfOk result (λ text. text.items ≡ text_of_lines (map (λ line. line.items) lines.now)) }
    ensures read_back { All (λ line. IsPlainLine line.items) lines.now → IfOk result (λ text. lines_of text.items ≡ map (λ line. line.items) lines.now) }
{
    let mut text = Vec::new(alloc);
    for line in lines {
        text.extend_from_slice(line)?;
        text.push(b'\n')?;
    }
    Ok(text)
}
