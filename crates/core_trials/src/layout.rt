use arena_geo::Vec3;
use core_steps::{
    COUNT_WORD, TABLE_WORDS, decode, encode, list_word, node_word, record_word, state_word,
};
use entity_recs::{Kind, PLAYER_MAXS, PLAYER_MINS, Rec};
use std::test::Fail;

#[test]
fn words_lie_where_they_should(rt: HostRuntime) -> Result<(), Fail> {
    assert_eq!(rt; COUNT_WORD, 0);
    assert_eq!(rt; (node_word(0), node_word(62)), (1, 63));
    assert_eq!(rt; (list_word(0), list_word(62)), (64, 126));
    assert_eq!(rt; (record_word(0), record_word(63)), (127, 442));
    assert_eq!(rt; (state_word(0), state_word(511)), (447, 958));
    assert_eq!(rt; TABLE_WORDS, 959);
    Ok(())
}

#[test]
fn record_is_five_words(rt: HostRuntime) -> Result<(), Fail> {
    let r = Rec {
        id: 7,
        kind: Kind::Player,
        origin: Vec3 {
            x: 98_304,
            y: -1,
            z: 6_144,
        },
        mins: PLAYER_MINS,
        maxs: PLAYER_MAXS,
        vel: Vec3 {
            x: -256,
            y: 0,
            z: 512_000,
        },
        flags: 3,
        ammo: 100,
        carry: 8,
        score: 5,
        seq: 40,
        state: 0,
    };
    let words = encode(&r);
    assert_eq!(rt; words[0], 0xffff_ffff_0001_8000);
    assert_eq!(rt; words[1], 0xffff_ff00_0000_1800);
    assert_eq!(rt; words[2], 0x0007_d000_0000_0000);
    assert_eq!(rt; words[3], 0x0000_0028_0000_0005);
    assert_eq!(rt; words[4], 0x0008_6403);
    assert_eq!(rt; decode(7, &words, 0), r);
    Ok(())
}
