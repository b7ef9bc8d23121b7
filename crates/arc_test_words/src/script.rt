//! Where a script ends: at its last line, which may lack its line feed, and at the greatest length.
use arc_script::{MAX_SCRIPT, ScriptCode, ScriptEnd, read_script};
use std::alloc::Global;
use std::test::Fail;

/// How many steps a script has, or why it has none.
fn steps_of(alloc: Global, script: &[u8]) -> Result<usize, ScriptEnd> {
    let steps = read_script(alloc, script)?;
    Ok(steps.len())
}

/// Scripts whose last line has no line feed, and how many steps they have.
const LAST_LINES: [(&[u8], Result<usize, ScriptEnd>); 10] = [
    (b"get 0 0 0 1", Ok(1)),
    (b"get 0 0 0 1\nget 0 0 0 1", Ok(2)),
    // One carriage return at its end is dropped there too.
    (b"get 0 0 0 1\r", Ok(1)),
    (
        b"set 0 0 0 1 On\r\r",
        Err(ScriptEnd::BadScript {
            line: 1,
            code: ScriptCode::State,
        }),
    ),
    (b"#", Ok(0)),
    (b"\r", Ok(0)),
    (b"# \xff\r", Ok(0)),
    (
        b"get 0 0 0 1\nget 0 0 0 \xff",
        Err(ScriptEnd::BadScript {
            line: 2,
            code: ScriptCode::NotUtf8,
        }),
    ),
    (
        b"get 0 0 0 1\nget",
        Err(ScriptEnd::BadScript {
            line: 2,
            code: ScriptCode::Shape,
        }),
    ),
    (b"call 0 0 0 ListManagedResources ", Ok(1)),
];

#[test]
fn the_last_line_may_lack_its_line_feed(rt: HostRuntime) -> Result<(), Fail> {
    for (script, steps) in LAST_LINES {
        assert_eq!(rt; steps_of(rt.alloc(), script), steps, "{script:?}");
    }
    Ok(())
}

/// Why a script that is too long has no steps.
const TOO_LONG: ScriptEnd = ScriptEnd::BadScript {
    line: 0,
    code: ScriptCode::TooLong,
};

#[test]
fn a_script_of_the_greatest_length_is_read(rt: HostRuntime) -> Result<(), Fail> {
    let alloc = rt.alloc();
    let mut script = vec![in alloc; b'#'; MAX_SCRIPT]?;
    assert_eq!(rt; steps_of(alloc, &script), Ok(0));
    script.push(b'#')?;
    assert_eq!(rt; steps_of(alloc, &script), Err(TOO_LONG));
    Ok(())
}
