//! Records that are read back, and texts that are none.

use super::*;
use crate::{RecordFault, read_record};

/// A mark of as many pairs as counts hold, and one of a pair more.
const FULL_MARK: &[u8] =
    b"nav got mark 1/9 0:1 1:2 2:3 3:4 4:5 5:6 6:7 7:8 8:9 9:10 10:11 11:12 12:13 13:14 14:15 15:16 16:17 17:18 18:19 19:20 20:21 21:22 22:23 23:24 24:25 25:26 26:27 27:28 28:29 29:30 30:31 31:32 done\n";

const LONG_MARK: &[u8] =
    b"nav got mark 1/9 0:1 1:1 2:1 3:1 4:1 5:1 6:1 7:1 8:1 9:1 10:1 11:1 12:1 13:1 14:1 15:1 16:1 17:1 18:1 19:1 20:1 21:1 22:1 23:1 24:1 25:1 26:1 27:1 28:1 29:1 30:1 31:1 32:1 done\n";

/// The text is read as so many lines, and they have this text.
pub(super) fn expect_read_back(
    rt: &impl Abort,
    alloc: Global,
    text: &[u8],
    count: usize,
) -> Result<(), Fail> {
    assert!(rt; text.len() <= 4294967295);
    let lines = read_record(alloc, text)
        .ok()
        .ok_or("the text is a record's")?;
    assert!(rt; lines.len() == count);
    assert!(rt; are_printable(&lines));
    let again = record_text(alloc, &lines)?;
    assert!(rt; again.as_slice() == text);
    Ok(())
}

#[test]
fn reads_records(rt: HostRuntime) -> Result<(), Fail> {
    let rows: [(&[u8], usize); 6] = [
        (b"", 0),
        (b"end\nend\n", 2),
        (b"boot 1 cut\nboot 65535 cut\nnav waits\nstuck\n", 4),
        (
            b"link 255 set-current 65535 > ack 9\nlink 0 timeout > ack 8\n",
            2,
        ),
        (
            b"worker serves nav spent 18446744073709551615\nnav position -2147483648 2147483647 > taken asks 255\n",
            2,
        ),
        (FULL_MARK, 1),
    ];
    for (text, count) in rows {
        expect_read_back(&rt, rt.alloc(), text, count)?;
    }
    Ok(())
}

/// The first line that is no line's text, by its number.
#[test]
fn tells_the_first_bad_line(rt: HostRuntime) {
    let rows: [(&[u8], u32); 33] = [
        (b"end", 1),
        (b"end\r\n", 1),
        (b"end\n\n", 2),
        (b"end\nstuck", 2),
        (b" end\n", 1),
        (b"end \n", 1),
        (b"nav  waits\n", 1),
        (b"Nav waits\n", 1),
        (b"boot 01 cut\n", 1),
        (b"boot 65536 cut\n", 1),
        (b"boot 1 mission 0/0 fence 0/0 safe 0/0 at 0 \n", 1),
        (b"link 256 waits\n", 1),
        (b"link 0 item 0 > ack 16\n", 1),
        (b"link 0 item 0 > ack 00\n", 1),
        (b"link 0 count 0 1 > none\n", 1),
        (b"nav got read mission 1/65536 done\n", 1),
        (b"nav got read mission 4294967296/0 done\n", 1),
        (b"nav got read missions 1/0 done\n", 1),
        (b"nav got mark 1/0 3:1 3:1 done\n", 1),
        (b"nav got mark 1/0 3:1 2:1 done\n", 1),
        (b"nav got mark 1/0 3:0 done\n", 1),
        (b"nav tick > idle asks 256\n", 1),
        (b"nav tick > idle\n", 1),
        (b"nav position -0 1 > taken asks 0\n", 1),
        (b"nav position 2147483648 1 > taken asks 0\n", 1),
        (b"nav position 1 -2147483649 > taken asks 0\n", 1),
        (b"worker serves nav spent 18446744073709551616\n", 1),
        (b"worker serves nav item 0 16 0 0 0 0 0 0 0 2\n", 1),
        (b"end\xff\n", 1),
        (b"\xc3\xa9\n", 1),
        (b"nav waits\nstuck\nlink 0 cancel > ack 99\nend.\n", 3),
        (b"\x00", 1),
        (LONG_MARK, 1),
    ];
    for (text, number) in rows {
        assert!(rt; text.len() <= 4294967295);
        assert!(rt;
            matches!(read_record(rt.alloc(), text), Err(RecordFault::BadLine(told)) if told == number),
            "at {}",
            text.len()
        );
    }
}
