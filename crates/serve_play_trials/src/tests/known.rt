use crate::{one_join_played, two_players_made, two_players_resent};
use std::test::Fail;

/// The status is known before the call, but for want of memory; here there is enough.
#[test]
fn one_join_ends_with_0_where_its_output_has_room(rt: HostRuntime) -> Result<(), Fail> {
    let status = one_join_played(&rt)?.status;
    prove!(status == 0 || status == 5);
    assert_eq!(rt; status, 0);
    Ok(())
}

#[test]
fn a_made_recording_ends_with_0_where_it_has_room(rt: HostRuntime) -> Result<(), Fail> {
    let status = two_players_made(&rt)?.status;
    prove!(status == 0 || status == 5);
    assert_eq!(rt; status, 0);
    Ok(())
}

#[test]
fn a_resent_recording_ends_with_0_where_it_has_room(rt: HostRuntime) -> Result<(), Fail> {
    let status = two_players_resent(&rt)?.status;
    prove!(status == 0 || status == 5);
    assert_eq!(rt; status, 0);
    Ok(())
}
