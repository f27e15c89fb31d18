use mj_base::Reason;
use mj_greeting::{Greeting, GreetingFault, broker_greeting, greeting_fault, read_greeting};

const SENT: &[u8; 64] =
    b"\xff\0\0\0\0\0\0\0\0\x7f\x03\0NULL\0\0\0\0\0\0\0\0\0\0\0\0\0\0\0\0\0\0\0\0\0\0\0\0\0\0\0\0\0\0\0\0\0\0\0\0\0\0\0\0\0\0\0\0\0\0\0\0";

#[test]
fn the_greeting_that_is_sent_is_accepted(rt: HostRuntime) {
    assert!(rt; broker_greeting().as_slice() == SENT.as_slice());
    let expected = Greeting {
        major: 3,
        minor: 0,
        as_server: 0,
    };
    assert!(rt; read_greeting(SENT) == Ok(expected));
}

#[test]
fn a_wrong_byte_is_told_with_its_offset(rt: HostRuntime) {
    let cases: [(usize, u8, Option<Reason>); 14] = [
        (0, 0xfe, Some(Reason::BadSignature)),
        (1, 0xff, None),
        (8, 0x01, None),
        (9, 0x7e, Some(Reason::BadSignature)),
        (10, 2, Some(Reason::BadVersion)),
        (10, 4, None),
        (11, 1, None),
        (12, b'C', Some(Reason::BadMechanism)),
        (15, b'l', Some(Reason::BadMechanism)),
        (16, b'A', Some(Reason::BadMechanism)),
        (31, 1, Some(Reason::BadMechanism)),
        (32, 1, None),
        (33, 1, None),
        (63, 0xff, None),
    ];
    for (at, octet, expected) in cases {
        let mut octets = *SENT;
        if let Some(place) = octets.get_mut(at) {
            *place = octet;
        }
        let fault = greeting_fault(&octets);
        assert!(rt; fault.map(|fault| fault.reason) == expected);
        assert!(rt; fault.map_or(at as u64, |fault| fault.at) == at as u64);
    }
}

#[test]
fn a_front_has_the_first_fault_of_its_bytes(rt: HostRuntime) {
    let wrong_end = GreetingFault {
        reason: Reason::BadSignature,
        at: 9,
    };
    assert!(rt; greeting_fault(b"").is_none());
    assert!(rt; greeting_fault(b"\xff\0\0\0").is_none());
    assert!(rt; greeting_fault(b"\xff\0\0\0\0\0\0\0\x01\x7e\x01") == Some(wrong_end));
}
