ghost use Rattle.std.specs.Prelude.{◌≡◌};
ghost use Rattle.m17_lsd.specs.Lsd.{FitsFields, lsd_bytes};

use super::lsd::Lsd;
use m17_fields::{bytes_48, get_16, get_48, put};
use m17_values::Address;

/// How many bytes link setup data have.
const LSD_BYTES: usize = 28;

/// Where DST begins.
const DST_AT: usize = 0;

/// Where SRC begins.
const SRC_AT: usize = 6;

/// Where TYPE begins.
const KIND_AT: usize = 12;

/// Where META begins.
const META_AT: usize = 14;

/// The 28 bytes of link setup data: DST, SRC, TYPE and META, each big-endian. M17 Protocol Specification, link setup
/// data.
pub fn write(l: &Lsd) -> [u8; 28]
    ensures bytes { result ≡ lsd_bytes l.now }
    ensures fits { FitsFields l.now }
{
    let kind = l.kind;
    let mut bytes = [0; LSD_BYTES];
    put(&mut bytes, DST_AT, &bytes_48(l.dst.value()));
    put(&mut bytes, SRC_AT, &bytes_48(l.src.value()));
    put(&mut bytes, KIND_AT, &kind.to_be_bytes());
    put(&mut bytes, META_AT, &l.meta);
    bytes
}

/// The link setup data that these 28 bytes spell. Each 28 bytes spell one. M17 Protocol Specification, link setup
/// data.
pub fn read(b: &[u8; 28]) -> Lsd
    ensures bytes { lsd_bytes result ≡ b.now }
    ensures fits { FitsFields result }
{
    let bytes: &[u8] = b;
    Lsd {
        dst: Address::new(get_48(bytes, DST_AT)).unwrap(),
        src: Address::new(get_48(bytes, SRC_AT)).unwrap(),
        kind: get_16(bytes, KIND_AT),
        meta: bytes[META_AT..].try_into().unwrap(),
    }
}
