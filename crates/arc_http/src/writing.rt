//! Writing a response.
ghost use Rattle.std.specs.Prelude.{◌≡◌, ◌++◌, codes, IfOk, OnOk};
ghost use Rattle.std.specs.Fmt.{decimal};
ghost use Rattle.arc_http.specs.Response.{close_line, head_lines, lines_with, phrase_of, response_text, token_line, IsAnswered};

use arc_bytes::Memory;
use arc_token::Token;
use http::StatusCode;
use std::alloc::Global;

/// The code of a status that is answered.
#[tactic(auto, using(crate::proofs::Statuses::answered_is_code))]
fn code_of(status: u16) -> StatusCode
    requires { IsAnswered status }
    ensures { result ≡ status }
{
    let Ok(code) = StatusCode::from_u16(status) else {
        unreachable!()
    };
    code
}

/// The phrase of a status.
fn phrase_of(code: StatusCode) -> &'static str
    ensures { result.now ≡ phrase_of code }
{
    code.canonical_reason().unwrap_or("")
}

/// The status line and the headers that every response has.
#[tactic(auto, unfolding(crate::specs::Response::lines_with))]
fn lines_with(alloc: Global, digits: &str, phrase: &str, size: usize) -> Result<Vec<u8>, Memory>
    ensures { IfOk result (λ text. text.items ≡ lines_with digits.now phrase.now size) }
{
    let text = format!(in alloc;
        "HTTP/1.1 {digits} {phrase}\r\nContent-Type: application/json\r\nContent-Length: {size}\r\n"
    )?;
    Ok(text.into_bytes())
}

/// The same of a status that is answered.
fn head_lines(alloc: Global, status: u16, size: usize) -> Result<Vec<u8>, Memory>
    requires { IsAnswered status }
    ensures { IfOk result (λ text. text.items ≡ head_lines status size) }
{
    let code = code_of(status);
    lines_with(alloc, code.as_str(), phrase_of(code), size)
}

/// Adds the header of a token, where there is one.
fn put_token(text: &mut Vec<u8>, token: Option<Token>) -> Result<(), Memory>
    ensures { OnOk result (text.new.items ≡ text.old.items ++ token_line token) }
{
    if let Some(token) = token {
        text.extend_from_slice(b"x-arc-token: ")?;
        text.extend_from_slice(token.digits().as_bytes())?;
        text.extend_from_slice(b"\r\n")?;
    }
    Ok(())
}

/// Adds the header that ends a connection, where it ends.
fn put_close(text: &mut Vec<u8>, close: bool) -> Result<(), Memory>
    ensures { OnOk result (text.new.items ≡ text.old.items ++ close_line close) }
{
    if close {
        text.extend_from_slice(b"Connection: close\r\n")?;
    }
    Ok(())
}

/// The text of a response: of what was answered with this status, with the token that the list has then where there is
/// one, and with a header that ends the connection where `close` says so.
#[tactic(auto, unfolding(crate::specs::Response::response_text))]
pub fn response(
    alloc: Global,
    status: u16,
    token: Option<Token>,
    close: bool,
    body: &[u8],
) -> Result<Vec<u8>, Memory>
    requires { IsAnswered status }
    ensures { IfOk result (λ text. text.items ≡ response_text status token close body.now) }
{
    let mut text = head_lines(alloc, status, body.len())?;
    put_token(&mut text, token)?;
    put_close(&mut text, close)?;
    text.extend_from_slice(b"\r\n")?;
    text.extend_from_slice(body)?;
    Ok(text)
}
