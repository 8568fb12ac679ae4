use super::{is_near, vec3};
use speed_rules::{accelerate, clamp, friction, gravity};

/// A velocity, a time in milliseconds and a wish on x and y, and the velocity after each rule alone.
struct Row {
    vel: [i32; 3],
    ms: u8,
    wish: [i16; 2],
    slower: [i32; 3],
    on_ground: [i32; 3],
    in_air: [i32; 3],
    falling: [i32; 3],
    cut: [i32; 3],
}

/// The answers of two independent plain implementations.
const ROWS: [Row; 14] = [
    Row {
        vel: [45, 100, 61],
        ms: 50,
        wish: [-71, 32_767],
        slower: [0, 0, 61],
        on_ground: [-43, 41_059, 61],
        in_air: [29, 7_680, 61],
        falling: [45, 100, -10_179],
        cut: [45, 100, 61],
    },
    Row {
        vel: [0, -600_000, -600_000],
        ms: 46,
        wish: [176, -19],
        slower: [0, -489_600, -600_000],
        on_ground: [0, -600_000, -600_000],
        in_air: [0, -600_000, -600_000],
        falling: [0, -600_000, -609_420],
        cut: [0, -512_000, -512_000],
    },
    Row {
        vel: [-20_957, 6_803, -73_132],
        ms: 30,
        wish: [177, 119],
        slower: [-18_035, 5_854, -73_132],
        on_ground: [-7_364, 15_942, -73_132],
        in_air: [-7_364, 15_942, -73_132],
        falling: [-20_957, 6_803, -79_276],
        cut: [-20_957, 6_803, -73_132],
    },
    Row {
        vel: [-50_409, 0, 0],
        ms: 50,
        wish: [44, -32_768],
        slower: [-40_328, 0, 0],
        on_ground: [-50_355, -40_959, 0],
        in_air: [-50_399, -7_746, 0],
        falling: [-50_409, 0, -10_240],
        cut: [-50_409, 0, 0],
    },
    Row {
        vel: [-100, 0, 0],
        ms: 33,
        wish: [72, 47],
        slower: [0, 0, 0],
        on_ground: [5_982, 3_970, 0],
        in_air: [5_982, 3_970, 0],
        falling: [-100, 0, -6_758],
        cut: [-100, 0, 0],
    },
    Row {
        vel: [-52, 81, 27],
        ms: 50,
        wish: [-230, 32_767],
        slower: [0, 0, 27],
        on_ground: [-339, 41_039, 27],
        in_air: [-105, 7_679, 27],
        falling: [-52, 81, -10_213],
        cut: [-52, 81, 27],
    },
    Row {
        vel: [-17_978, -148_536, 0],
        ms: 50,
        wish: [-11_602, -176],
        slower: [-14_382, -118_828, 0],
        on_ground: [-58_933, -149_157, 0],
        in_air: [-17_978, -148_536, 0],
        falling: [-17_978, -148_536, -10_240],
        cut: [-17_978, -148_536, 0],
    },
    Row {
        vel: [-116_902, -173_336, -600_000],
        ms: 50,
        wish: [-193, 149],
        slower: [-93_521, -138_669, -600_000],
        on_ground: [-141_606, -154_264, -600_000],
        in_air: [-133_580, -160_461, -600_000],
        falling: [-116_902, -173_336, -610_240],
        cut: [-116_902, -173_336, -512_000],
    },
    Row {
        vel: [21_671, 25_600, -25_600],
        ms: 50,
        wish: [-1_733, 0],
        slower: [17_336, 20_480, -25_600],
        on_ground: [-19_289, 25_600, -25_600],
        in_air: [-7_680, 25_600, -25_600],
        falling: [21_671, 25_600, -35_840],
        cut: [21_671, 25_600, -25_600],
    },
    Row {
        vel: [406_035, -123_248, -498_902],
        ms: 2,
        wish: [-46, 181],
        slower: [402_787, -122_262, -498_902],
        on_ground: [405_800, -122_322, -498_902],
        in_air: [405_800, -122_322, -498_902],
        falling: [406_035, -123_248, -499_311],
        cut: [406_035, -123_248, -498_902],
    },
    Row {
        vel: [7_149, -20_970, -7_678],
        ms: 50,
        wish: [297, -282],
        slower: [5_496, -16_123, -7_678],
        on_ground: [36_852, -49_173, -7_678],
        in_air: [7_149, -20_970, -7_678],
        falling: [7_149, -20_970, -17_918],
        cut: [7_149, -20_970, -7_678],
    },
    Row {
        vel: [-600_000, -600_000, 0],
        ms: 15,
        wish: [32_767, 162],
        slower: [-564_000, -564_000, 0],
        on_ground: [-587_713, -599_940, 0],
        in_air: [-587_713, -599_940, 0],
        falling: [-600_000, -600_000, -3_072],
        cut: [-512_000, -512_000, 0],
    },
    Row {
        vel: [8_819, 3_799, -25_600],
        ms: 11,
        wish: [32_767, 122],
        slower: [7_784, 3_353, -25_600],
        on_ground: [17_829, 3_832, -25_600],
        in_air: [8_819, 3_799, -25_600],
        falling: [8_819, 3_799, -27_852],
        cut: [8_819, 3_799, -25_600],
    },
    Row {
        vel: [-3, -25_600, 0],
        ms: 9,
        wish: [-126, 38],
        slower: [-2, -24_679, 0],
        on_ground: [-2_905, -24_725, 0],
        in_air: [-2_905, -24_725, 0],
        falling: [-3, -25_600, -1_843],
        cut: [-3, -25_600, 0],
    },
];

#[test]
fn rules_give_the_outside_answers(rt: HostRuntime) {
    for row in &ROWS {
        let (vel, ms, [wish_x, wish_y]) = (vec3(row.vel), row.ms, row.wish);
        assert!(rt; is_near(vel, 600_000));
        assert!(rt; 1 <= ms && ms <= 50);
        let on_ground = accelerate(vel, wish_x, wish_y, ms, true);
        let in_air = accelerate(vel, wish_x, wish_y, ms, false);
        assert_eq!(rt; friction(vel, ms), vec3(row.slower), "{vel:?}");
        assert_eq!(rt; on_ground, vec3(row.on_ground), "{vel:?}");
        assert_eq!(rt; in_air, vec3(row.in_air), "{vel:?}");
        assert_eq!(rt; gravity(vel, ms), vec3(row.falling), "{vel:?}");
        assert_eq!(rt; clamp(vel), vec3(row.cut), "{vel:?}");
    }
}

// Computed by hand.
#[test]
fn a_runner_gathers_speed(rt: HostRuntime) {
    let mut vel = vec3([0, 0, 0]);
    for x in [40_960, 73_728, 81_920] {
        assert!(rt; is_near(vel, 600_000));
        let slower = friction(vel, 50);
        assert!(rt; is_near(slower, 600_000));
        vel = accelerate(slower, 320, 0, 50, true);
        assert_eq!(rt; vel, vec3([x, 0, 0]));
    }
}

// The cuts add 1 to the part along the wish, whose cap is 1,055, and lose 3 of one whose cap is 7,680.
#[test]
fn cuts_lead_past_the_cap_and_short_of_it(rt: HostRuntime) {
    for (vel, wish_x, wish_y, ms, faster) in [
        ([-2_610, 1_460, 0], 1, 4, 28, [-2_544, 1_724, 0]),
        ([3, -2, 0], -7_817, -6_875, 50, [-5_763, -5_073, 0]),
    ] {
        let vel = vec3(vel);
        assert!(rt; is_near(vel, 600_000));
        assert!(rt; 1 <= ms && ms <= 50);
        assert_eq!(rt; accelerate(vel, wish_x, wish_y, ms, false), vec3(faster));
    }
}
