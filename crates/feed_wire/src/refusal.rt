//! Why a request is refused, and how that is answered.
ghost use Rattle.std.specs.Prelude.{◌≡◌};
ghost use Rattle.feed_wire.specs.Answer.{refusal_code, refusal_text};

use http::StatusCode;

/// Why a request for a feed is refused: the first of these that holds.
#[derive(Clone, Copy)]
pub enum Refusal {
    /// The head is over its limits.
    LargeHead,
    /// There is no whole head, or its target is no path that can be read.
    Unreadable,
    /// The method is not GET.
    NotGet,
    /// The path is not that of the contest's feed.
    OtherPath,
    /// The node has published nothing.
    NothingPublished,
    /// The node does not hold the token.
    TokenNotHeld,
}

impl Refusal {
    /// The status code of the answer (RFC 9110, section 15; RFC 6585, section 5).
    pub fn code(self) -> u16
        ensures { result ≡ refusal_code self }
    {
        let status = match self {
            Refusal::LargeHead => StatusCode::REQUEST_HEADER_FIELDS_TOO_LARGE,
            Refusal::Unreadable => StatusCode::BAD_REQUEST,
            Refusal::NotGet => StatusCode::METHOD_NOT_ALLOWED,
            Refusal::OtherPath => StatusCode::NOT_FOUND,
            Refusal::NothingPublished => StatusCode::SERVICE_UNAVAILABLE,
            Refusal::TokenNotHeld => StatusCode::BAD_REQUEST,
        };
        status.as_u16()
    }

    /// The whole answer.
    pub fn text(self) -> &'static [u8]
        ensures { result.now ≡ refusal_text self }
    {
        match self {
            Refusal::LargeHead => {
                b"HTTP/1.1 431 Request Header Fields Too Large\r\n\
                  Content-Type: application/json\r\nContent-Length: 39\r\n\
                  Connection: close\r\n\r\n{\"code\":431,\"message\":\"head too large\"}"
            }
            Refusal::Unreadable => {
                b"HTTP/1.1 400 Bad Request\r\nContent-Type: application/json\r\n\
                  Content-Length: 36\r\nConnection: close\r\n\r\n\
                  {\"code\":400,\"message\":\"bad request\"}"
            }
            Refusal::NotGet => {
                b"HTTP/1.1 405 Method Not Allowed\r\nContent-Type: application/json\r\n\
                  Allow: GET\r\nContent-Length: 43\r\nConnection: close\r\n\r\n\
                  {\"code\":405,\"message\":\"method not allowed\"}"
            }
            Refusal::OtherPath => {
                b"HTTP/1.1 404 Not Found\r\nContent-Type: application/json\r\n\
                  Content-Length: 34\r\nConnection: close\r\n\r\n\
                  {\"code\":404,\"message\":\"not found\"}"
            }
            Refusal::NothingPublished => {
                b"HTTP/1.1 503 Service Unavailable\r\nContent-Type: application/json\r\n\
                  Content-Length: 42\r\nConnection: close\r\n\r\n\
                  {\"code\":503,\"message\":\"nothing published\"}"
            }
            Refusal::TokenNotHeld => {
                b"HTTP/1.1 400 Bad Request\r\nContent-Type: application/json\r\n\
                  Content-Length: 39\r\nConnection: close\r\n\r\n\
                  {\"code\":400,\"message\":\"token not held\"}"
            }
        }
    }
}
