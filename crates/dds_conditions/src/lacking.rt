//! Whether a key lacks a bound.
ghost use Rattle.std.specs.Prelude.{◌≡◌, ◌&&◌, is_none, is_some};

/// Whether a key of a strict reader lacks the bound that it needs: samples of it can reach the reader, how many of an
/// instance the reader may store is limited (OMG DDS 1.4, clauses 2.2.3.18 and 2.2.3.19), and no bound is named.
pub fn lacks_bound(is_reached: bool, limit: Option<u32>, bound: Option<u32>) -> bool
    ensures { result ≡ (is_reached && (is_some limit && is_none bound)) }
{
    is_reached && limit.is_some() && bound.is_none()
}
