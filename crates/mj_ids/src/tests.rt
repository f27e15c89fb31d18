use super::{TicketId, ids_of_tickets_are_told_apart, the_worked_ids};
use std::process::Abort;
use std::test::Fail;

const FIRST: &[u8] = b"e56a5d40-28bd-8653-8000-000000000001";

const FIRST_OCTETS: [u8; 16] = [
    0xe5, 0x6a, 0x5d, 0x40, 0x28, 0xbd, 0x86, 0x53, 0x80, 0, 0, 0, 0, 0, 0, 1,
];

#[test]
fn ids_of_a_seed_of_zeros(rt: HostRuntime) {
    let seed = [0; 32];
    let rows: [(u64, &[u8]); 2] = [(1, FIRST), (2, b"b819d2bd-1aed-8da0-8000-000000000002")];
    for (number, text) in rows {
        let id = TicketId::of(&seed, number);
        assert!(rt; id.text().as_slice() == text, "{number}");
        assert!(rt; id.number() == number);
    }
    assert!(rt; TicketId::of(&seed, 1).octets() == FIRST_OCTETS);
    assert!(rt; TicketId::of(&seed, (1 << 62) - 1).number() == (1 << 62) - 1);
}

#[test]
fn four_forms_of_an_id_are_read(rt: HostRuntime) {
    let rows: [&[u8]; 6] = [
        FIRST,
        b"E56A5D40-28BD-8653-8000-000000000001",
        b"e56a5d4028bd86538000000000000001",
        b"{e56a5d40-28bd-8653-8000-000000000001}",
        b"urn:uuid:e56a5d40-28bd-8653-8000-000000000001",
        b"urn:uuid:E56A5d40-28bd-8653-8000-000000000001",
    ];
    for text in rows {
        are_octets(&rt, text, Some(FIRST_OCTETS));
    }
}

#[test]
fn other_texts_are_no_ids(rt: HostRuntime) {
    let rows: [&[u8]; 13] = [
        b"",
        b"x",
        b"e56a5d40-28bd-4653-8000-000000000001",
        b"e56a5d4028bd46538000000000000001",
        b"{e56a5d40-28bd-4653-8000-000000000001}",
        b"urn:uuid:e56a5d40-28bd-4653-8000-000000000001",
        b"e56a5d40-28bd-8653-c000-000000000001",
        b"e56a5d40-28bd-8653-0000-000000000001",
        b"{e56a5d4028bd86538000000000000001}",
        b"URN:UUID:e56a5d40-28bd-8653-8000-000000000001",
        b"e56a5d40-28bd-8653-8000-00000000000",
        b"e56a5d40-28bd-8653-8000-00000000000g",
        b"e56a5d40-28bd-8653-8000-000000000001 ",
    ];
    for text in rows {
        are_octets(&rt, text, None);
    }
}

fn are_octets(rt: &impl Abort, text: &[u8], octets: Option<[u8; 16]>) {
    let id = TicketId::read(text);
    assert!(rt; id.map(|id| id.octets()) == octets, "{text:?}");
}

#[test]
fn octets_of_another_version_or_variant_are_no_id(rt: HostRuntime) -> Result<(), Fail> {
    let id = TicketId::from_octets(&FIRST_OCTETS).ok_or("an id")?;
    assert!(rt; id == TicketId::of(&[0; 32], 1));
    assert!(rt; id != TicketId::of(&[1; 32], 1));
    let mut octets = FIRST_OCTETS;
    octets[6] = 0x46;
    assert!(rt; TicketId::from_octets(&octets).is_none());
    octets[6] = 0x86;
    octets[8] = 0xc0;
    assert!(rt; TicketId::from_octets(&octets).is_none());
    octets[8] = 0xbf;
    assert!(rt; TicketId::from_octets(&octets).is_some());
    Ok(())
}

#[test]
fn laws_can_be_called() {
    ids_of_tickets_are_told_apart();
    the_worked_ids();
}
