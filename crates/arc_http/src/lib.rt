//! Requests and responses of HTTP/1.1, in one fixed profile.
//!
//! It stands on `httparse` for the grammar of heads, on `http` for the phrases of statuses, on `memchr`, and on
//! `arc_token` for numbers and tokens. No session of a connection stands on it yet.
//!
//! A request is a head and a body. The head is what `httparse` reads in its default configuration: at most 64 fields,
//! within the first 8,192 bytes, behind empty lines or not. It is then tested: the method, the target, the transfer
//! coding, the length, the token, in this order, and the first test that fails refuses the request. The body is as many
//! bytes as `Content-Length` says, at most 65,536.
//!
//! The law that it keeps: what the bytes so far are read as is one of three things, which `specs/Reading.antt` states
//! apart from this code. They begin with a head, and its tests and its body decide; or no head can come of them any more,
//! and they are refused; or a head can still come, and more bytes are wanted. Bytes that come later change nothing that
//! was answered, but where they end inside a target (`later_bytes_change_nothing`).
//!
//! The caller hands in the bytes from the first one that no earlier request took, and hands them in again, with more,
//! where nothing was answered. Once a head is whole, `request_size` says how many bytes its request has: until they are there
//! the request needn't be read again. Reading takes no memory.
#![tactic(auto)]

mod asked;
mod end;
mod fields;
mod laws;
mod reading;
mod sizes;
mod target;
mod view;
mod writing;

pub use end::HeadEnd;
pub use laws::{
    a_request_is_waited_for, a_request_needs_its_bytes_alone, later_bytes_change_nothing,
};
pub use reading::read_request;
pub use sizes::request_size;
pub use view::RequestView;
pub use writing::response;
