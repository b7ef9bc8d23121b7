//! Names and bodies that no line of a script holds.
use arc_json::{Code, RequestEnd, read_op};
use std::alloc::{AllocError, Global};
use std::test::Fail;

/// The code of a request, or `None` where it is read.
fn code_of(alloc: Global, name: &str, body: &[u8]) -> Result<Option<Code>, AllocError> {
    match read_op(alloc, name.as_bytes(), body) {
        Ok(_) => Ok(None),
        Err(RequestEnd::BadRequest { code }) => Ok(Some(code)),
        Err(RequestEnd::Memory) => Err(AllocError),
    }
}

/// Names and bodies, and the code of each that isn't read.
const REQUESTS: [(&str, &[u8], Option<Code>); 6] = [
    // A script that isn't UTF-8 is refused before its bodies are looked at, and a body in it has no line feed.
    (
        "ListManagedResources",
        b"{\"a\":\"\xff\"}",
        Some(Code::BadJson),
    ),
    ("ListManagedResources", b"{\n}\r\n", None),
    ("ListManagedResources", b"\n", Some(Code::BadJson)),
    (
        "ListManagedResources",
        b"{\"a\":\"\n\"}",
        Some(Code::BadJson),
    ),
    // The name of an operation is a word there: it isn't empty, and has no blank.
    ("", b"[", Some(Code::UnknownOperation)),
    ("SetAlarmState ", b"", Some(Code::UnknownOperation)),
];

#[test]
fn requests_that_no_line_holds(rt: HostRuntime) -> Result<(), Fail> {
    for (name, body, code) in REQUESTS {
        assert_eq!(rt; code_of(rt.alloc(), name, body)?, code, "{name}");
    }
    Ok(())
}

#[test]
fn a_body_of_65536_bytes_is_read(rt: HostRuntime) -> Result<(), Fail> {
    let alloc = rt.alloc();
    let mut body = vec![in alloc; b' '; 65_534]?;
    body.extend_from_slice(b"{}")?;
    assert_eq!(rt; code_of(alloc, "ListManagedResources", &body)?, None);
    Ok(())
}
