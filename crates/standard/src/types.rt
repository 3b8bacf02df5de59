// Record types.
ghost use Rattle.std.specs.Prelude.{◌≡◌};
ghost use Rattle.standard.specs.Types.{type_code};

use leaves::names;

// The code of a record type's name.
pub fn record_type(name: &[u8]) -> u16
    ensures { result ≡ type_code name.now }
{
    if names::same_name(name, b"warcinfo") {
        return 2;
    }
    if names::same_name(name, b"response") {
        return 4;
    }
    if names::same_name(name, b"resource") {
        return 8;
    }
    if names::same_name(name, b"request") {
        return 16;
    }
    if names::same_name(name, b"metadata") {
        return 32;
    }
    if names::same_name(name, b"revisit") {
        return 64;
    }
    if names::same_name(name, b"conversion") {
        return 128;
    }
    if names::same_name(name, b"continuation") {
        return 256;
    }
    32768
}
