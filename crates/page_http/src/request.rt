use page_io::{Bytes, Text};

/// The least number of a set that a request asks for, by its fields `Set-At-Least`.
#[derive(Clone, Copy, Debug, PartialEq, Eq)]
pub enum AtLeast {
    /// There is no such field.
    Absent,
    /// There is one, whose value is this number in decimal digits.
    Number(u64),
    /// There are several, or one whose value is no number of 64 bits in digits.
    Bad,
}

/// How the body of a request is to be read, by its field `Content-Type` (RFC 9110, section 8.3).
#[derive(Clone, Copy, Debug, PartialEq, Eq)]
pub enum BodyKind {
    /// The value begins with `application/json`, in any case.
    Json,
    /// The value begins with `application/x-www-form-urlencoded`, in any case.
    Form,
    /// Another value, no such field, or several.
    Other,
}

/// A request (RFC 9112, section 2.1), as far as it decides the reply.
#[derive(Debug, Drop)]
pub struct Request {
    /// The method, as it stands (RFC 9110, section 9.1).
    pub method: Text,
    /// The target before its first `?`, as it stands; nothing in it is decoded.
    pub path: Text,
    /// What follows that `?`; empty without one.
    pub query: Bytes,
    pub at_least: AtLeast,
    pub body_kind: BodyKind,
    /// As many bytes as `Content-Length` says (RFC 9112, section 6.2), none without it.
    pub body: Bytes,
    /// Whether the connection ends with the reply: the version is HTTP/1.0, a field `Connection`
    /// lists `close` (RFC 9112, section 9.6), or the method is HEAD or CONNECT.
    pub close: bool,
}
