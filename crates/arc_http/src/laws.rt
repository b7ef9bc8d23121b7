//! Laws of reading.
ghost use Rattle.arc_http.specs.Laws.{HaveOneAnswer, KeepTheirAnswer, NeedItsBytesAlone};
ghost use Rattle.arc_http.specs.Sizes.{WaitsForSize};

/// The bytes so far have one answer, and what was answered before later bytes came is answered with them too, unless it
/// was that more are wanted. So it doesn't matter how the input is cut. The one exception: bytes that end, or reach the
/// most bytes of a head, inside a target that belongs to no head may be refused there, or be waited with.
pub fn later_bytes_change_nothing()
    ensures one { HaveOneAnswer }
    ensures kept { KeepTheirAnswer }
{}

/// Whatever comes, more bytes are wanted until a request has as many as its head says.
pub fn a_request_is_waited_for()
    ensures { WaitsForSize }
{}

/// A request is read from its own bytes alone as it is with others behind it. So a stream of requests is their bytes, one after the
/// other.
pub fn a_request_needs_its_bytes_alone()
    ensures { NeedItsBytesAlone }
{}
