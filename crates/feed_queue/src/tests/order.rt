use crate::place_list::PlaceList;
use crate::{MOST_PLACES, NoFeedHold, gather};
use packet_read::{Arrival, ArrivalBytes};
use std::test::*;

fn arrival(port: u16) -> Arrival {
    Arrival {
        port,
        bytes: ArrivalBytes::new(),
    }
}

#[test]
fn packets_of_one_port_stay_in_order(rt: HostRuntime) -> Result<(), Fail> {
    let order = gather(
        &rt,
        rt.alloc(),
        &[arrival(7), arrival(7), arrival(7)],
        &NoFeedHold,
    )?;
    assert_eq!(rt; order.as_slice(), [0, 1, 2].as_slice());
    let order = gather(&rt, rt.alloc(), &[], &NoFeedHold)?;
    assert_eq!(rt; order.as_slice(), [].as_slice());
    Ok(())
}

#[test]
fn place_list_ends_at_512(rt: HostRuntime) -> Result<(), Fail> {
    let mut places = PlaceList::new(rt.alloc())?;
    for place in 0..MOST_PLACES {
        assert!(rt; places.push(place as u32));
    }
    assert!(rt; !places.push(512));
    assert_eq!(rt; places.as_slice().len(), 512);
    Ok(())
}
