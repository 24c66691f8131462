//! Equal keys and kinds.

ghost use Rattle.std.specs.Prelude.{◌≡◌};
ghost use Rattle.plane_types.specs.Keys.{key_eq, kind_eq};

use crate::frame::{Key, KeyKind};

/// Whether two packets are of the same kind.
pub fn is_kind(a: KeyKind, b: KeyKind) -> bool
    ensures { result ≡ kind_eq a b }
{
    match (a, b) {
        (KeyKind::Tcp, KeyKind::Tcp) => true,
        (KeyKind::Udp, KeyKind::Udp) => true,
        (KeyKind::EchoAsk, KeyKind::EchoAsk) => true,
        (KeyKind::EchoReply, KeyKind::EchoReply) => true,
        (KeyKind::Proto(a), KeyKind::Proto(b)) => a == b,
        _ => false,
    }
}

/// Whether two keys are equal.
pub fn is_key(a: &Key, b: &Key) -> bool
    ensures { result ≡ key_eq a.now b.now }
{
    is_kind(a.kind, b.kind)
        && a.ends.source() == b.ends.source()
        && a.sport == b.sport
        && a.ends.destination() == b.ends.destination()
        && a.dport == b.dport
}
