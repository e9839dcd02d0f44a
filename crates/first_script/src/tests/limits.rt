//! The limits of plans, inputs, uploads and turns: each is met, and passed by one more.

use crate::fault::ScriptFault;
use crate::tests::{HEAD, PLAIN, judged, repeated, sixteen_plans};
use std::alloc::AllocError;
use std::test::*;

#[test]
fn limit_of_plans(rt: HostRuntime) -> Result<(), AllocError> {
    let plans = sixteen_plans(rt.alloc())?;
    let end = ScriptFault::Unfinished;
    assert_eq!(rt; judged(rt.alloc(), HEAD, &plans)?, Some((50, end)));
    let more = repeated(rt.alloc(), &plans, b"plan q safe\nQGC WPL 110\nend\n", 1)?;
    let over = ScriptFault::TooMany;
    assert_eq!(rt; judged(rt.alloc(), HEAD, &more)?, Some((50, over)));
    Ok(())
}

#[test]
fn limits_of_a_schedule(rt: HostRuntime) -> Result<(), AllocError> {
    let rows: [(&[u8], usize, u32); 3] = [
        (b"nav go\n", 20_000, 20_007),
        (b"link 0 upload p\n", 256, 263),
        (b"turns w n l0 w n l0 w n l0 w\n", 2_000, 2_007),
    ];
    for (line, most, at) in rows {
        let full = repeated(rt.alloc(), b"", line, most)?;
        assert_eq!(rt; judged(rt.alloc(), PLAIN, &full)?, None);
        let over = repeated(rt.alloc(), &full, line, 1)?;
        assert_eq!(rt;
            judged(rt.alloc(), PLAIN, &over)?,
            Some((at, ScriptFault::TooMany))
        );
    }
    Ok(())
}

/// Behind 19,995 words of turns a line has room for five more.
#[test]
fn words_of_turns_are_counted_together(rt: HostRuntime) -> Result<(), AllocError> {
    let five = b"turns w n l0 w n\n";
    let turns = repeated(rt.alloc(), PLAIN, five, 3_999)?;
    assert_eq!(rt; judged(rt.alloc(), &turns, five)?, None);
    let over = Some((4_006, ScriptFault::TooMany));
    assert_eq!(rt; judged(rt.alloc(), &turns, b"turns w n l0 w n l0\n")?, over);
    Ok(())
}

/// 256 uploads and 9,872 times two other inputs are 20,000 lines; turns are not counted among them.
#[test]
fn inputs_of_all_actors_are_counted_together(rt: HostRuntime) -> Result<(), AllocError> {
    let uploads = repeated(rt.alloc(), b"", b"link 0 upload p\n", 256)?;
    let pairs = b"link 0 meet 0 1\nnav go\n";
    let full = repeated(rt.alloc(), &uploads, pairs, 9_872)?;
    let over = Some((20_007, ScriptFault::TooMany));
    let rows: [(&[u8], Option<(u32, ScriptFault)>); 4] = [
        (b"", None),
        (b"turns w n l0\n", None),
        (b"link 0 wait\n", over),
        (b"nav wait\n", over),
    ];
    for (line, want) in rows {
        let text = repeated(rt.alloc(), &full, line, 1)?;
        assert_eq!(rt; judged(rt.alloc(), PLAIN, &text)?, want);
    }
    Ok(())
}
