//! Texts with their lines and words, as the rules for them say.

use crate::{
    MAX_LINE_BYTES, MAX_TEXT_BYTES, Span, TextFault, WordCursor, join_text, split_lines, words_of,
};
use std::test::*;

const LONGEST: [u8; 512] = [b'a'; 512];

const TOO_LONG: [u8; 513] = [b'a'; 513];

fn same(spans: &[Span], places: &[(u32, u32)]) -> bool {
    spans.len() == places.len()
        && spans
            .iter()
            .zip(places)
            .all(|(span, place)| span.from == place.0 && span.to == place.1)
}

#[test]
fn lines_of_texts(rt: HostRuntime) -> Result<(), Fail> {
    let rows: [(&[u8], &[(u32, u32)]); 8] = [
        (b"", &[]),
        (b"\n", &[(0, 0)]),
        (b"a", &[(0, 1)]),
        (b"ab\nc\n", &[(0, 2), (3, 4)]),
        (b"a\r\n\r\nb\r", &[(0, 1), (3, 3), (5, 7)]),
        (b"\r\r\n", &[(0, 1)]),
        (b"a\rb\n\nc", &[(0, 3), (4, 4), (5, 6)]),
        (&LONGEST, &[(0, 512)]),
    ];
    for (text, places) in rows {
        assert!(rt; text.len() <= MAX_TEXT_BYTES);
        let spans = split_lines(rt.alloc(), text)
            .ok()
            .ok_or("the text has no fault")?;
        assert!(rt; same(&spans, places), "at {}", text.len());
    }
    Ok(())
}

#[test]
fn faults_of_texts(rt: HostRuntime) {
    let rows: [(&[u8], TextFault); 4] = [
        (b"a\x80\xff", TextFault::NotAscii(1)),
        (b"\xff", TextFault::NotAscii(0)),
        (&TOO_LONG, TextFault::LongLine(1)),
        (b"a\xc3\xa9\n", TextFault::NotAscii(1)),
    ];
    for (text, fault) in rows {
        assert!(rt; text.len() <= MAX_TEXT_BYTES);
        assert!(rt;
            matches!(split_lines(rt.alloc(), text), Err(found) if found == fault),
            "{fault}"
        );
    }
}

#[test]
fn words_of_lines(rt: HostRuntime) -> Result<(), Fail> {
    let rows: [(&[u8], &[(u32, u32)]); 4] = [
        (b"", &[]),
        (b" \t ", &[]),
        (b"0\t1  -2.5", &[(0, 1), (2, 3), (5, 9)]),
        (b"\tQGC WPL 110 ", &[(1, 4), (5, 8), (9, 12)]),
    ];
    for (text, places) in rows {
        assert!(rt; text.len() <= MAX_TEXT_BYTES);
        let line = Span {
            from: 0,
            to: text.len() as u32,
        };
        let words = words_of(rt.alloc(), text, line)?;
        assert!(rt; same(&words, places), "at {}", text.len());
    }
    Ok(())
}

#[test]
fn words_one_by_one(rt: HostRuntime) {
    let text = b"#\tnav  go \t\n";
    let mut words = WordCursor::new(text, Span { from: 1, to: 10 });
    assert_eq!(rt; words.next(text), Some(Span { from: 2, to: 5 }));
    assert_eq!(rt; words.next(text), Some(Span { from: 7, to: 9 }));
    assert_eq!(rt; words.next(text), None);
    assert_eq!(rt; words.next(text), None);
}

/// A span that goes on past the text, one that begins behind it, and one that ends before it begins.
#[test]
fn words_of_clipped_lines(rt: HostRuntime) -> Result<(), Fail> {
    let rows: [(Span, &[(u32, u32)]); 4] = [
        (Span { from: 1, to: 99 }, &[(1, 2), (3, 5)]),
        (Span { from: 6, to: 9 }, &[]),
        (Span { from: 4, to: 1 }, &[]),
        (
            Span {
                from: 0,
                to: 4_294_967_295,
            },
            &[(0, 2), (3, 5)],
        ),
    ];
    for (line, places) in rows {
        let words = words_of(rt.alloc(), b"ab cd", line)?;
        assert!(rt; same(&words, places), "from {}", line.from);
    }
    Ok(())
}

#[test]
fn limits_of_texts(rt: HostRuntime) {
    assert_eq!(rt; MAX_TEXT_BYTES, 4_194_304);
    assert_eq!(rt; MAX_LINE_BYTES, 512);
}

#[test]
fn lines_joined(rt: HostRuntime) -> Result<(), Fail> {
    let first = Vec::from_slice(rt.alloc(), b"QGC WPL 110")?;
    let second = Vec::new(rt.alloc());
    let lines = vec![in rt.alloc(); first, second]?;
    let text = join_text(rt.alloc(), &lines)?;
    assert_eq!(rt; text.as_slice(), b"QGC WPL 110\n\n".as_slice());
    Ok(())
}
