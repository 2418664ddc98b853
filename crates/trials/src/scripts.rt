use script::player::answers_to;
use script::record::RECORD;
use std::test::Fail;

// One look at page 5, and a byte more.
const LOOK: [u8; 17] = [8, 0, 0, 0, 5, 0, 0, 0, 0, 0, 0, 0, 0, 0, 0, 0, 99];

// The answer to a rest: kind 255, core 0, number 15, part 4, no place, answer 0, epoch 0.
const REST: [u8; RECORD] = [255, 0, 15, 4, 255, 255, 255, 255, 0, 0, 0, 0, 0, 0, 0, 0];

// The answer to the look: no fault, no place, answer 0, epoch 0.
const SEEN: [u8; RECORD] = [8, 0, 0, 0, 255, 255, 255, 255, 0, 0, 0, 0, 0, 0, 0, 0];

#[test]
fn every_length_is_answered(rt: HostRuntime) -> Result<(), Fail> {
    let heap = rt.alloc();
    assert_eq!(rt; answers_to(heap, &LOOK[0..0])?.as_slice(), [].as_slice());
    assert_eq!(rt; answers_to(heap, &LOOK[0..1])?.as_slice(), REST.as_slice());
    assert_eq!(rt; answers_to(heap, &LOOK[0..15])?.as_slice(), REST.as_slice());
    assert_eq!(rt; answers_to(heap, &LOOK[0..16])?.as_slice(), SEEN.as_slice());
    assert_eq!(rt;
        answers_to(heap, &LOOK)?.as_slice(),
        [SEEN, REST].as_flattened()
    );
    Ok(())
}
