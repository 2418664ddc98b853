use super::answer::Reply;
use super::record::{RECORD, read};
use model::call::Call;
use model::fault::{Fault, Reason, SpaceFault};

// Each kind with a place of its record that it does not use.
const UNUSED: [(u8, usize); 33] = [
    (0, 2),
    (0, 3),
    (1, 3),
    (1, 12),
    (2, 2),
    (2, 3),
    (2, 8),
    (2, 12),
    (3, 2),
    (3, 3),
    (3, 12),
    (4, 2),
    (4, 3),
    (4, 12),
    (5, 2),
    (5, 3),
    (5, 8),
    (5, 12),
    (6, 2),
    (6, 3),
    (6, 4),
    (6, 8),
    (6, 12),
    (7, 2),
    (7, 3),
    (7, 4),
    (7, 8),
    (7, 12),
    (8, 1),
    (8, 2),
    (8, 3),
    (8, 8),
    (8, 12),
];

// A short script that has every call but share and flush: kind, core, label and three numbers.
const LISTING: [(u8, u8, u8, u8, u8, u8); 10] = [
    (0, 2, 0, 2, 4, 5),
    (1, 0, 7, 64, 64, 0),
    (2, 1, 0, 70, 0, 0),
    (8, 0, 0, 70, 0, 0),
    (4, 0, 0, 70, 1, 0),
    (6, 0, 0, 0, 0, 0),
    (5, 1, 0, 0, 0, 0),
    (5, 1, 0, 0, 0, 0),
    (6, 0, 0, 0, 0, 0),
    (2, 1, 0, 70, 0, 0),
];

// A record with small numbers.
fn small(kind: u8, core: u8, label: u8, a: u8, b: u8, c: u8) -> [u8; RECORD] {
    [kind, core, label, 0, a, 0, 0, 0, b, 0, 0, 0, c, 0, 0, 0]
}

#[test]
fn calls_are_read(rt: HostRuntime) {
    assert_eq!(rt;
        read(&small(0, 2, 0, 2, 4, 5)),
        Ok(Call::SetUp {
            cores: 2,
            frames: 2,
            nodes: 4,
            epoch: 5,
        })
    );
    assert_eq!(rt;
        read(&small(1, 0, 7, 64, 63, 0)),
        Ok(Call::Map {
            core: 0,
            label: 7,
            first: 64,
            count: 63,
        })
    );
    assert_eq!(rt;
        read(&[8, 0, 0, 0, 1, 2, 3, 0, 0, 0, 0, 0, 0, 0, 0, 0]),
        Ok(Call::Look { page: 197_121 })
    );
}

#[test]
fn a_listing_is_read(rt: HostRuntime) {
    for (kind, core, label, a, b, c) in LISTING {
        assert!(rt; read(&small(kind, core, label, a, b, c)).is_ok());
    }
}

#[test]
fn the_length_is_sixteen(rt: HostRuntime) {
    let bytes = [0; 17];
    assert!(rt; read(&bytes[0..16]).is_ok());
    assert!(rt; read(&bytes[0..0]).is_err());
    assert!(rt; read(&bytes[0..15]).is_err());
    assert!(rt; read(&bytes).is_err());
}

#[test]
fn unused_fields_are_zero(rt: HostRuntime) {
    for (kind, place) in UNUSED {
        let mut bytes = small(kind, 0, 0, 0, 0, 0);
        assert!(rt; read(&bytes).is_ok());
        bytes[place % RECORD] = 1;
        assert!(rt; read(&bytes).is_err());
    }
    assert!(rt; read(&small(9, 0, 0, 0, 0, 0)).is_err());
}

#[test]
fn replies_are_written(rt: HostRuntime) {
    let done = Reply {
        kind: 2,
        core: 1,
        outcome: Ok(1),
        epoch: 5,
    };
    assert_eq!(rt;
        done.to_bytes(),
        [2, 1, 0, 0, 255, 255, 255, 255, 1, 0, 0, 0, 5, 0, 0, 0]
    );
    let vacant = Fault::Space(SpaceFault::Refused {
        reason: Reason::Vacant,
        place: Some(70),
    });
    let refused = Reply {
        kind: 2,
        core: 1,
        outcome: Err(vacant),
        epoch: 5,
    };
    assert_eq!(rt;
        refused.to_bytes(),
        [2, 1, 6, 1, 70, 0, 0, 0, 0, 0, 0, 0, 5, 0, 0, 0]
    );
    let rest = Reply {
        kind: 255,
        core: 0,
        outcome: Err(Fault::BadRecord),
        epoch: 5,
    };
    assert_eq!(rt;
        rest.to_bytes(),
        [255, 0, 15, 4, 255, 255, 255, 255, 0, 0, 0, 0, 5, 0, 0, 0]
    );
}
