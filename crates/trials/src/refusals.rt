use model::fault::{Fault, SpaceFault};
use space::memory::Memory;

// What a caller is told: the answer, or number, part and place of a fault.
fn told_by(outcome: Result<u32, SpaceFault>) -> Result<u32, (u8, u8, Option<u32>)> {
    outcome.map_err(|fault| {
        let fault = Fault::from(fault);
        (fault.number(), fault.part().number(), fault.place())
    })
}

#[test]
fn nothing_passes_before_set_up(rt: HostRuntime) {
    let mut memory = Memory::new();
    assert_eq!(rt; told_by(memory.map(0, 1, 0, 1)), Err((1, 1, None)));
    assert_eq!(rt; told_by(memory.look(262_143)), Ok(0));
    assert_eq!(rt; memory.epoch(), 0);
}

#[test]
fn set_up_keeps_its_ranges(rt: HostRuntime) {
    let mut memory = Memory::new();
    assert_eq!(rt; told_by(memory.set_up(0, 1, 1, 9)), Err((14, 1, None)));
    assert_eq!(rt; told_by(memory.set_up(17, 1, 1, 9)), Err((14, 1, None)));
    assert_eq!(rt; told_by(memory.set_up(1, 0, 1, 9)), Err((14, 1, None)));
    assert_eq!(rt; told_by(memory.set_up(1, 1025, 1, 9)), Err((14, 1, None)));
    assert_eq!(rt; told_by(memory.set_up(1, 1, 0, 9)), Err((14, 1, None)));
    assert_eq!(rt; told_by(memory.set_up(1, 1, 65, 9)), Err((14, 1, None)));
    assert_eq!(rt; memory.epoch(), 0);
    assert_eq!(rt; told_by(memory.set_up(16, 1024, 64, u32::MAX)), Ok(0));
    assert_eq!(rt; memory.epoch(), u32::MAX);
}

#[test]
fn map_refuses_in_order(rt: HostRuntime) {
    let mut memory = Memory::new();
    assert_eq!(rt; told_by(memory.set_up(2, 3, 4, 5)), Ok(0));
    assert_eq!(rt;
        told_by(memory.map(2, 0, 0, 0)),
        Err((1, 1, None)),
        "core before range"
    );
    assert_eq!(rt;
        told_by(memory.map(1, 0, 9, 0)),
        Err((2, 1, None)),
        "range before label"
    );
    assert_eq!(rt; told_by(memory.map(1, 7, 262_143, 2)), Err((2, 1, None)));
    assert_eq!(rt; told_by(memory.map(1, 7, 262_144, 1)), Err((2, 1, None)));
    assert_eq!(rt;
        told_by(memory.map(1, 7, u32::MAX, u32::MAX)),
        Err((2, 1, None)),
        "past 32 bits"
    );
    assert_eq!(rt; told_by(memory.map(1, 0, 9, 1)), Err((3, 1, None)));
    assert_eq!(rt;
        told_by(memory.map(1, 7, 262_143, 1)),
        Ok(0),
        "the last page"
    );
    assert_eq!(rt;
        told_by(memory.map(0, 8, 262_080, 64)),
        Err((4, 1, Some(262_143)))
    );
    assert_eq!(rt; told_by(memory.look(262_143)), Ok(7));
    assert_eq!(rt;
        told_by(memory.look(262_142)),
        Ok(0),
        "a refusal alters nothing"
    );
    assert_eq!(rt; told_by(memory.look(262_144)), Err((2, 1, None)));
}

#[test]
fn nodes_are_counted_before_a_write(rt: HostRuntime) {
    let mut memory = Memory::new();
    assert_eq!(rt; told_by(memory.set_up(1, 1, 3, 0)), Ok(0));
    assert_eq!(rt; told_by(memory.map(0, 1, 64, 64)), Ok(0), "one node");
    assert_eq!(rt; memory.nodes_in_use(), 2);
    assert_eq!(rt;
        told_by(memory.map(0, 2, 4_096, 63)),
        Err((9, 2, Some(4_096))),
        "two wanted, one free"
    );
    assert_eq!(rt; memory.nodes_in_use(), 2);
    assert_eq!(rt; told_by(memory.look(4_096)), Ok(0));
    assert_eq!(rt;
        told_by(memory.map(0, 3, 128, 3)),
        Ok(0),
        "one wanted, one free"
    );
    assert_eq!(rt;
        told_by(memory.map(0, 4, 8_192, 253_952)),
        Ok(0),
        "whole blocks"
    );
    assert_eq!(rt; memory.nodes_in_use(), 3);
}
