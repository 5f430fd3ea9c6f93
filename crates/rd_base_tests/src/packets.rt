//! Headers of the packets, as the public standards give them.
use rd_base::{Bad, Cursor, Packet, Why, packet_of, put_header, read_header, read_header_among};

/// Each packet by the first bytes of a message.
const HEADERS: [(&[u8], Packet); 13] = [
    (b"rDnI\x01\0\x0c\0", Packet::ServerAnnounce),
    (b"rDCC", Packet::ClientIdConfirm),
    (b"rDNC", Packet::ClientName),
    (b"rDPS", Packet::ServerCapability),
    (b"rDPC", Packet::ClientCapability),
    (b"rDLU", Packet::UserLoggedOn),
    (b"rDAD", Packet::DeviceListAnnounce),
    (b"rDrd", Packet::DeviceReply),
    (b"rDMD", Packet::DeviceListRemove),
    (b"rDRI", Packet::IoRequest),
    (b"rDCI", Packet::IoCompletion),
    (b"RPCP", Packet::PrinterCacheData),
    (b"RPCU", Packet::PrinterUsingXps),
];

#[test]
fn names_packets(rt: HostRuntime) {
    for (message, packet) in HEADERS {
        assert_eq!(rt; packet_of(message), Ok(packet));
        assert_eq!(rt; read_header(&mut Cursor::new(message), packet), Ok(()));
        let mut out = Vec::with_capacity(rt.alloc(), 4).expect(&rt, "memory for a header");
        put_header(&mut out, packet);
        assert!(rt; out.len() == 4 && message.starts_with(out.as_slice()));
    }
}

#[test]
fn names_faults_of_headers(rt: HostRuntime) {
    let rows: [(&[u8], u32, Why); 6] = [
        (b"r", 0, Why::Short),
        (b"xDnI", 0, Why::Component),
        (b"rD", 2, Why::Short),
        (b"rD\0\0", 2, Why::Packet),
        (b"rDCP", 2, Why::Packet),
        (b"RPnI", 2, Why::Packet),
    ];
    for (message, at, why) in rows {
        assert_eq!(rt; packet_of(message), Err(Bad { at, why }));
    }
}

#[test]
fn wants_some_packets(rt: HostRuntime) {
    let wanted = [Packet::IoRequest, Packet::UserLoggedOn];
    assert_eq!(rt;
        read_header_among(&mut Cursor::new(b"rDLU"), &wanted),
        Ok(Packet::UserLoggedOn)
    );
    let other = Bad {
        at: 2,
        why: Why::Packet,
    };
    assert_eq!(rt;
        read_header_among(&mut Cursor::new(b"rDCI"), &wanted),
        Err(other)
    );
    assert_eq!(rt;
        read_header(&mut Cursor::new(b"rDCI"), Packet::IoRequest),
        Err(other)
    );
}
