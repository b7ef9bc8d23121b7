//! Why a request was refused.

/// Why a request was refused before its body was looked at: the first test that it fails.
#[derive(Clone, Copy, Debug, PartialEq, Eq)]
pub enum HeadEnd {
    /// These bytes can't become a head of at most 64 fields.
    BadHead,
    /// So many bytes are there and hold no whole head.
    HeadTooLong { limit: usize },
    /// The method isn't `POST`.
    BadMethod,
    /// The target doesn't begin with `/`, or is `/` without exactly one `X-Amz-Target`.
    BadTarget,
    /// There is a `Transfer-Encoding`.
    TransferCoding,
    /// There is no `Content-Length`.
    NoLength,
    /// A `Content-Length` isn't decimal digits of a number below 2^64, or two of them differ in value.
    BadLength,
    /// The body would have so many bytes, more than 65,536.
    BodyTooLong { length: u64 },
    /// An `x-arc-token` isn't 1 to 20 decimal digits of a number below 2^64, or there are two.
    BadToken,
}
