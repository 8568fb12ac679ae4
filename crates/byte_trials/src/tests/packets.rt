use packet_read::{
    BlockList, CmdBlock, MovePacket, MovesPacket, Packet, PacketBytes, PacketFault, read_packet,
    write_packet,
};

/// Bytes, and what they are read as, computed by a plain implementation written apart from this one.
const ROWS: [(&[u8], Result<Packet, PacketFault>); 27] = [
    (&[], Err(PacketFault::Empty)),
    (&[2], Err(PacketFault::Short)),
    (&[3], Err(PacketFault::Version)),
    (
        &[3, 2, 0x8d, 0x0e, 0x78, 0x0c, 0],
        Err(PacketFault::Version),
    ),
    (&[1, 9], Err(PacketFault::Kind)),
    (&[1, 0], Err(PacketFault::Kind)),
    (
        &[1, 0xf8, 0x82, 0x4b, 0xa1, 0xce, 0x32, 0xc4, 0, 0, 0, 3],
        Err(PacketFault::Kind),
    ),
    (&[1], Err(PacketFault::Short)),
    (&[1, 2], Err(PacketFault::Short)),
    (
        &[1, 2, 1, 0, 0, 0, 0x32, 0x40, 1, 0, 0],
        Err(PacketFault::Short),
    ),
    (
        &[1, 2, 1, 0, 0, 0, 0x32, 0x40, 1, 0, 0, 0, 0],
        Err(PacketFault::Long),
    ),
    (
        &[1, 2, 3, 0, 0, 0, 0xf0, 0x0f, 0xff, 7, 0, 1, 0xea],
        Err(PacketFault::Long),
    ),
    (&[1, 1, 0x1a], Err(PacketFault::Long)),
    (&[1, 3, 0x14], Err(PacketFault::Long)),
    (
        &[1, 2, 1, 0, 0, 0, 0, 0x40, 1, 0, 0, 0],
        Err(PacketFault::Time),
    ),
    (
        &[1, 2, 1, 0, 0, 0, 0x33, 0x40, 1, 0, 0, 0],
        Err(PacketFault::Time),
    ),
    (
        &[1, 2, 0x10, 0x44, 0xbe, 0xd9, 0x42, 0x3e, 0, 0xff, 0x7f, 2],
        Err(PacketFault::Time),
    ),
    (
        &[1, 2, 1, 0, 0, 0, 0x32, 0x40, 1, 0, 0, 0x80],
        Err(PacketFault::Buttons),
    ),
    (
        &[1, 2, 6, 0x45, 0x65, 0xc1, 8, 0xff, 0x7f, 0xfd, 0, 3],
        Err(PacketFault::Buttons),
    ),
    (
        &[
            1, 2, 0x54, 0xbe, 0x92, 0x8d, 0x32, 0xfd, 0xa9, 0xce, 0xff, 0xff,
        ],
        Err(PacketFault::Buttons),
    ),
    (&[1, 1], Ok(Packet::Join)),
    (&[1, 3], Ok(Packet::Leave)),
    (
        &[1, 2, 0xbb, 0x29, 0xef, 0xce, 0x32, 0, 0, 0x34, 0, 0],
        Ok(Packet::Move(MovePacket {
            seq: 3471780283,
            ms: 50,
            wish_x: 0,
            wish_y: 52,
            buttons: 0,
        })),
    ),
    (
        &[
            1, 2, 0xe1, 0x32, 0xb1, 0x2b, 0x32, 0x0e, 0x7f, 0xeb, 0xfe, 0,
        ],
        Ok(Packet::Move(MovePacket {
            seq: 733033185,
            ms: 50,
            wish_x: 32526,
            wish_y: -277,
            buttons: 0,
        })),
    ),
    (
        &[1, 2, 0x54, 0x64, 0x53, 0x46, 0x0e, 0, 0xff, 0xc2, 0x98, 1],
        Ok(Packet::Move(MovePacket {
            seq: 1179870292,
            ms: 14,
            wish_x: -256,
            wish_y: -26430,
            buttons: 1,
        })),
    ),
    (
        &[1, 2, 0xbc, 0x81, 0x4b, 0x39, 0x14, 0x71, 0, 0x51, 0xb9, 1],
        Ok(Packet::Move(MovePacket {
            seq: 961249724,
            ms: 20,
            wish_x: 113,
            wish_y: -18095,
            buttons: 1,
        })),
    ),
    (
        &[
            1, 2, 0x22, 0x7d, 0x37, 0xbb, 0x26, 0xac, 0xff, 0xa8, 0xff, 1,
        ],
        Ok(Packet::Move(MovePacket {
            seq: 3140975906,
            ms: 38,
            wish_x: -84,
            wish_y: -88,
            buttons: 1,
        })),
    ),
];

#[test]
fn reads_packets_and_writes_them_again(rt: HostRuntime) {
    for (bytes, want) in &ROWS {
        let got = read_packet(bytes);
        assert_eq!(rt; got, *want, "at {bytes:?}");
        if let Ok(packet) = got {
            assert_eq!(rt; write_packet(&packet).as_slice(), *bytes);
        }
    }
}

#[test]
fn lists_at_most_64_bytes(rt: HostRuntime) {
    let mut bytes = PacketBytes::new();
    for byte in 0..64u8 {
        assert!(rt; bytes.push(byte));
    }
    assert!(rt; !bytes.push(64));
    assert_eq!(rt; bytes.as_slice().len(), 64);
}

/// Bytes of version 2, and what they are refused for.
const REFUSED: [(&[u8], PacketFault); 8] = [
    (&[2, 1], PacketFault::Kind),
    (&[2, 2, 1, 0, 0, 0, 0], PacketFault::Count),
    (
        &[
            2, 2, 0, 0, 0, 0, 2, 0x32, 0, 0, 0, 0, 0, 0x32, 0, 0, 0, 0, 0,
        ],
        PacketFault::Count,
    ),
    (
        &[
            2, 2, 2, 0, 0, 0, 2, 0x32, 0, 0, 0, 0, 0, 0x32, 0, 0, 0, 0, 4,
        ],
        PacketFault::Buttons,
    ),
    // The times of all commands come first, then the buttons of all, then how many there are.
    (
        &[
            2, 2, 2, 0, 0, 0, 2, 0x32, 0, 0, 0, 0, 4, 0x33, 0, 0, 0, 0, 0,
        ],
        PacketFault::Time,
    ),
    (
        &[
            2, 2, 9, 0, 0, 0, 4, 0x32, 0, 0, 0, 0, 0, 0x32, 0, 0, 0, 0, 0, 0x32, 0, 0, 0, 0, 4,
        ],
        PacketFault::Buttons,
    ),
    (
        &[
            2, 2, 9, 0, 0, 0, 4, 0x32, 0, 0, 0, 0, 0, 0x32, 0, 0, 0, 0, 0, 0, 0, 0, 0, 0, 4,
        ],
        PacketFault::Time,
    ),
    (
        &[
            2, 2, 9, 0, 0, 0, 4, 0x32, 0, 0, 0, 0, 0, 0x32, 0, 0, 0, 0, 0, 0x32, 0, 0, 0, 0, 3,
        ],
        PacketFault::Count,
    ),
];

#[test]
fn refuses_packets_of_version_2(rt: HostRuntime) {
    for (bytes, want) in &REFUSED {
        assert_eq!(rt; read_packet(bytes), Err(*want), "at {bytes:?}");
    }
}

/// What a packet of version 2 is refused for that has so many bytes, announces so many commands, each of them of 50
/// milliseconds and without buttons, and whose newest has the number 1.
fn refused_for(len: usize, count: u8) -> Option<PacketFault> {
    let whole = 7 + 6 * usize::from(count.min(3));
    if len == 0 {
        Some(PacketFault::Empty)
    } else if len < whole {
        Some(PacketFault::Short)
    } else if len > whole {
        Some(PacketFault::Long)
    } else if count == 0 || count > 2 {
        Some(PacketFault::Count)
    } else {
        None
    }
}

#[test]
fn each_length_has_one_fault(rt: HostRuntime) {
    let mut bytes = [0u8; 64];
    bytes[0] = 2;
    bytes[1] = 2;
    bytes[2] = 1;
    for place in 7..64usize {
        if (place - 7) % 6 == 0 {
            bytes[place] = 50;
        }
    }
    for count in 0..=255u8 {
        bytes[6] = count;
        for len in 0..65usize {
            let got = match read_packet(&bytes[..len]) {
                Ok(_) => None,
                Err(fault) => Some(fault),
            };
            assert_eq!(rt;
                got,
                refused_for(len, count),
                "{len} bytes, {count} commands"
            );
        }
    }
}

/// The command before the newest.
const EARLIER: CmdBlock = CmdBlock {
    ms: 50,
    wish_x: 320,
    wish_y: -2,
    buttons: 1,
};

/// The newest command.
const NEWEST: CmdBlock = CmdBlock {
    ms: 1,
    wish_x: -32768,
    wish_y: 255,
    buttons: 2,
};

/// The two commands as the newest has the number 258.
const TWO_COMMANDS: [u8; 19] = [
    2, 2, 2, 1, 0, 0, 2, 0x32, 0x40, 1, 0xfe, 0xff, 1, 1, 0, 0x80, 0xff, 0, 2,
];

#[test]
fn reads_packets_of_version_2_and_writes_them_again(rt: HostRuntime) {
    let mut cmds = BlockList::new();
    assert!(rt; cmds.push(EARLIER));
    assert!(rt; cmds.push(NEWEST));
    let packet = Packet::Moves(MovesPacket { seq: 258, cmds });
    assert_eq!(rt; read_packet(&TWO_COMMANDS), Ok(packet));
    let mut again = BlockList::new();
    assert!(rt; again.push(EARLIER));
    assert!(rt; again.push(NEWEST));
    let steps = MovesPacket {
        seq: 258,
        cmds: again,
    };
    assert_eq!(rt; EARLIER.move_with_number(257).seq, 257);
    assert_eq!(rt;
        write_packet(&Packet::Moves(steps)).as_slice(),
        TWO_COMMANDS.as_slice()
    );
}

#[test]
fn lists_at_most_3_commands(rt: HostRuntime) {
    let mut cmds = BlockList::new();
    assert!(rt; cmds.push(EARLIER));
    assert!(rt; cmds.push(NEWEST));
    assert!(rt; cmds.push(EARLIER));
    assert!(rt; !cmds.push(NEWEST));
    assert_eq!(rt; cmds.as_slice(), [EARLIER, NEWEST, EARLIER].as_slice());
}
