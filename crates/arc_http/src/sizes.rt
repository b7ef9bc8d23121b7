//! How many bytes a request has whose head is whole.
ghost use Rattle.std.specs.Prelude.{◌+◌, ◌<◌, ◌≤◌, IfSome};
ghost use Rattle.arc_http.specs.Asked.{most_body};
ghost use Rattle.arc_http.specs.Reading.{most_head};
ghost use Rattle.arc_http.specs.Sizes.{HasSize};

use crate::asked::read_head;
use crate::reading::{MAX_FIELDS, front_of};
use httparse::{EMPTY_HEADER, Request, Status};

/// How many bytes the request at the front has, its head and its body, where its head is whole and passes its tests. Until so
/// many bytes are there `read_request` wants more (`a_request_is_waited_for`), so that it needn't be asked: a body that comes byte
/// by byte costs its bytes. `None` where no such head is there.
pub fn request_size(buf: &[u8]) -> Option<usize>
    ensures size { IfSome result (λ size. HasSize buf.now size) }
    ensures within { IfSome result (λ size. (0 < size) × (size ≤ most_head + most_body)) }
{
    let front = front_of(buf);
    let mut headers = [EMPTY_HEADER; MAX_FIELDS];
    let mut head = Request::new(&mut headers);
    let Ok(Status::Complete(length)) = head.parse(front) else {
        return None;
    };
    if head.headers.len() > MAX_FIELDS {
        return None;
    }
    let method = head.method.unwrap();
    let target = head.path.unwrap();
    let minor = head.version.unwrap();
    match read_head(method, target, minor, head.headers) {
        Ok(passed) => Some(length + passed.body_length),
        Err(_) => None,
    }
}
