use m17_callsign::{Address, CallAddress, CallRefusal, encode, from_bytes, text, to_bytes};
use std::test::Fail;

/// Callsigns and the numbers of their addresses: some, and the first and the last of stations and of groups.
const CALLSIGNS: [(&str, u64); 9] = [
    ("AB1CD", 0x0000_009F_DD51),
    ("N0CALL", 0x0000_4B13_D106),
    ("M17-TST", 0x0013_89F9_BAED),
    (" A", 40),
    ("A", 1),
    (".........", 0xEE6B_27FF_FFFF),
    ("#A", 0xEE6B_2800_0001),
    ("#AB", 0xEE6B_2800_0051),
    ("#........", 0xF461_08FF_FFFF),
];

#[test]
fn callsigns_and_addresses_give_each_other(rt: HostRuntime) -> Result<(), Fail> {
    for (callsign, number) in CALLSIGNS {
        let address = encode(callsign)?;
        assert_eq!(rt; address.value(), number);
        let back = text(address).ok_or("no callsign")?;
        assert_eq!(rt; back.as_str(), callsign);
    }
    Ok(())
}

#[test]
fn other_texts_are_refused_for_the_first_reason(rt: HostRuntime) {
    let refusals = [
        ("", CallRefusal::Empty),
        ("ABCDEFGHIJ", CallRefusal::Long(10)),
        ("abcdefghij", CallRefusal::Long(10)),
        ("#ABCDEFGHI", CallRefusal::Long(10)),
        ("a", CallRefusal::Letter(0)),
        ("A b ", CallRefusal::Letter(2)),
        ("A#", CallRefusal::Letter(1)),
        ("##", CallRefusal::Letter(1)),
        ("#A# ", CallRefusal::Letter(2)),
        ("#", CallRefusal::Bare),
        ("A ", CallRefusal::TrailingSpace),
        ("# ", CallRefusal::TrailingSpace),
    ];
    for (callsign, refusal) in refusals {
        assert_eq!(rt; encode(callsign), Err(refusal));
    }
}

#[test]
fn addresses_outside_have_no_callsign(rt: HostRuntime) -> Result<(), Fail> {
    for number in [0, 0xEE6B_2800_0000, 0xF461_0900_0000, 0xFFFF_FFFF_FFFF] {
        let address = Address::new(number).ok_or("no address")?;
        assert!(rt; text(address).is_none());
        assert!(rt; CallAddress::new(address).is_none());
    }
    assert!(rt; Address::new(0x1_0000_0000_0000).is_none());
    assert_eq!(rt; Address::broadcast().value(), 0xFFFF_FFFF_FFFF);
    Ok(())
}

/// The text of the address with this number has so many bytes, and its address is that one.
fn is_spelled(number: u64, long: usize) -> bool {
    let Some(address) = Address::new(number) else {
        return false;
    };
    match text(address) {
        Some(callsign) => {
            callsign.as_str().len() == long && encode(callsign.as_str()) == Ok(address)
        }
        None => false,
    }
}

#[test]
fn all_callsigns_of_one_and_two_letters_give_their_addresses(rt: HostRuntime) {
    for number in 1..1600_u64 {
        let long = if number < 40 { 1 } else { 2 };
        assert!(rt; is_spelled(number, long));
        assert!(rt; is_spelled(0xEE6B_2800_0000 + number, long + 1));
    }
}

#[test]
fn the_most_significant_byte_comes_first(rt: HostRuntime) -> Result<(), Fail> {
    let address = Address::new(0x0013_89F9_BAED).ok_or("no address")?;
    let call = CallAddress::new(address).ok_or("no callsign")?;
    let bytes = [0x00, 0x13, 0x89, 0xF9, 0xBA, 0xED];
    assert_eq!(rt; to_bytes(call.address()), bytes);
    assert_eq!(rt; from_bytes(&bytes), address);
    Ok(())
}

#[test]
fn each_refusal_says_what_is_wrong(rt: HostRuntime) -> Result<(), Fail> {
    let alloc = rt.alloc();
    let texts = [
        (CallRefusal::Empty, "a callsign has at least one letter"),
        (
            CallRefusal::Long(10),
            "a callsign has at most 9 letters, and this has 10 bytes",
        ),
        (CallRefusal::Letter(3), "no letter of callsigns at byte 3"),
        (
            CallRefusal::Bare,
            "a group has at least one letter after its #",
        ),
        (
            CallRefusal::TrailingSpace,
            "a callsign does not end in a space",
        ),
    ];
    for (refusal, text) in texts {
        let said = format!(in alloc; "{refusal}")?;
        assert_eq!(rt; said.as_str(), text);
    }
    Ok(())
}
