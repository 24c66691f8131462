//! Why bytes are refused.
ghost use Rattle.std.specs.Prelude.{◌≡◌, ◌≤◌};
ghost use Rattle.http_session.specs.BadBytes.{bad_number};

/// Why bytes are refused (RFC 9112, 2.2, 5 and 6; RFC 9110, 15.5).
#[derive(Clone, Copy, Debug, PartialEq, Eq)]
pub enum BadBytes {
    /// They are no request.
    Malformed,
    /// The head is too large.
    HeadLarge,
    /// The body is too large.
    BodyLarge,
    /// The body's length isn't given, or there is a transfer coding.
    NoLength,
}

impl BadBytes {
    // By the number of a refused head, 1 to 4.
    pub(crate) fn numbered(number: u8) -> BadBytes
        requires { (1 ≤ number) × (number ≤ 4) }
        ensures { bad_number result ≡ number }
    {
        match number {
            1 => BadBytes::Malformed,
            2 => BadBytes::HeadLarge,
            3 => BadBytes::BodyLarge,
            _ => BadBytes::NoLength,
        }
    }
}
