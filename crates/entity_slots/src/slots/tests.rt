use super::*;
use std::test::Fail;

#[test]
fn each_join_gets_the_least_free_slot(rt: HostRuntime) -> Result<(), Fail> {
    let mut slots = Slots::new();
    assert_eq!(rt; slots.slot_for(7), Ok(0));
    slots.seat(0, 7);
    assert_eq!(rt; slots.slot_for(7), Err(JoinFault::Already));
    assert_eq!(rt; slots.slot_for(9), Ok(1));
    slots.seat(1, 9);
    slots.vacate(0);
    assert_eq!(rt; slots.slot_of(7), None);
    assert_eq!(rt; slots.slot_of(9), Some(1));
    assert_eq!(rt; slots.slot_for(7), Ok(0));
    assert_eq!(rt; slots.port_at(0), None);
    let mut other = Slots::new();
    other.copy_from(&slots);
    assert_eq!(rt; other, slots);
    Ok(())
}

#[test]
fn the_65th_join_gets_no_slot(rt: HostRuntime) -> Result<(), Fail> {
    let mut slots = Slots::new();
    for slot in 0..64u8 {
        if let Ok(place) = slots.slot_for(u16::from(slot) + 1) {
            assert_eq!(rt; place, slot);
            slots.seat(place, u16::from(slot) + 1);
        }
    }
    assert_eq!(rt; slots.slot_for(65), Err(JoinFault::Full));
    assert_eq!(rt; slots.slot_for(64), Err(JoinFault::Already));
    if let Some(slot) = slots.slot_of(18) {
        slots.vacate(slot);
    }
    assert_eq!(rt; slots.slot_for(65), Ok(17));
    Ok(())
}
