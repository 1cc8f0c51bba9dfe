ghost use Rattle.std.specs.Prelude.{◌≡◌};
ghost use Rattle.m17_decorators.specs.Echo as echo;

// Whether these are the bytes of a DISC, with a callsign or without.
pub(crate) fn is_disc(bytes: &[u8]) -> bool
    ensures { result ≡ echo.is_disc bytes.now }
{
    (bytes.len() == 4 || bytes.len() == 10) && bytes.starts_with(b"DISC")
}
