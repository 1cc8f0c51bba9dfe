ghost use Rattle.std.specs.Prelude.{◌≡◌, ℕ, ◌+◌, ◌<◌, ◌≤◌, length, take, drop, IsTrue, ◌↔◌, IfSome};
ghost use Rattle.std.specs.Option.{IfNone};
ghost use Rattle.m17_fields.specs.Fields.{field_at, be_32};
ghost use Rattle.m17_floor.specs.declared.verdict.Verdict.{Verdict};
ghost use Rattle.m17_book.specs.Records.{zeros_10, zeros_12};
ghost use Rattle.m17_book.specs.Parsed.{IsValueOf};

use crate::form::PLACES;
use m17_fields::{get_16, get_32, get_64};
use m17_floor::Verdict;
use m17_stream::FRAME_NUMBERS;
use m17_values::Member;

/// The value of a verdict that has none.
const NO_VALUE: [u8; 12] = [0; 12];

/// What stands before the number in the value of a Late.
const BEFORE_NUMBER: [u8; 10] = [0; 10];

/// A place below 256; none where the four bytes are another number.
pub(crate) fn parse_place(b: &[u8], at: usize) -> Option<u32>
    requires { at + 4 ≤ length b.now }
    ensures some { IfSome result (λ place. (place < 256) × (be_32 place ≡ field_at at 4 b.now)) }
    ensures none { IfNone result ((place : ℕ) → place < 256
        → be_32 place ≡ field_at at 4 b.now → ⊥) }
{
    m17_fields::laws::fields_of_32_bits_are_exact();
    let place = get_32(b, at);
    if place < PLACES { Some(place) } else { None }
}

/// The verdict of this byte with this value; none where the value is not allowed.
pub(crate) fn parse_verdict(code: u8, value: &[u8]) -> Option<Verdict>
    requires low { 1 ≤ code }
    requires high { code ≤ 9 }
    requires size { length value.now ≡ 12 }
    ensures some { IfSome result (λ verdict. IsValueOf code value.now verdict) }
    ensures none { IfNone result ((verdict : Verdict) → IsValueOf code value.now verdict → ⊥) }
{
    if code == 3 {
        return parse_busy(value);
    }
    if code == 5 {
        return parse_late(value);
    }
    if value != NO_VALUE.as_slice() {
        return None;
    }
    match code {
        1 => Some(Verdict::Opened),
        2 => Some(Verdict::Continued),
        4 => Some(Verdict::Repeat),
        6 => Some(Verdict::AfterEnd),
        7 => Some(Verdict::NotMember),
        8 => Some(Verdict::ListenOnly),
        _ => Some(Verdict::TimedOut),
    }
}

/// A Busy: its holder's place and generation.
fn parse_busy(value: &[u8]) -> Option<Verdict>
    requires { length value.now ≡ 12 }
    ensures some { IfSome result (λ verdict. IsValueOf 3 value.now verdict) }
    ensures none { IfNone result ((verdict : Verdict) → IsValueOf 3 value.now verdict → ⊥) }
{
    match parse_place(value, 0) {
        Some(place) => Some(Verdict::Busy {
            holder: Member {
                place,
                generation: get_64(value, 4),
            },
        }),
        None => None,
    }
}

/// A Late: ten zero bytes, and a frame number.
fn parse_late(value: &[u8]) -> Option<Verdict>
    requires { length value.now ≡ 12 }
    ensures some { IfSome result (λ verdict. IsValueOf 5 value.now verdict) }
    ensures none { IfNone result ((verdict : Verdict) → IsValueOf 5 value.now verdict → ⊥) }
{
    m17_fields::laws::fields_of_16_bits_are_exact();
    let last = get_16(value, 10);
    let before = &value[..10];
    if before != BEFORE_NUMBER.as_slice() {
        return None;
    }
    if last >= FRAME_NUMBERS {
        return None;
    }
    Some(Verdict::Late { last })
}
