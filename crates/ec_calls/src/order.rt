//! The order of places in a source.
ghost use Rattle.std.specs.Prelude.{◌≡◌};
ghost use Rattle.ec_calls.specs.Seen as seen;

use ec_base::Span;

/// Whether a place begins before another, or ends before it where both begin together.
pub(crate) fn is_before(a: Span, b: Span) -> bool
    ensures { result ≡ seen.is_before a b }
{
    a.from < b.from || (a.from == b.from && a.to < b.to)
}
