//! Messages that the public standards and worked examples give.
use rd_base::{Bad, Bytes, Items, ReadNo, Status, Why};
use rd_devices::{
    Announce, DeviceList, DeviceReply, PrinterInfo, can_write_list, can_write_printer,
    can_write_removal, list_size, put_list, put_printer, put_removal, put_reply, read_list,
    read_printer, read_removal, read_reply, write_list, write_printer, write_removal, write_reply,
};
use std::process::Abort;

/// A drive with the id 1 and the DOS name DATA.
const DRIVE_LIST: &[u8] = b"rDAD\x01\0\0\0\x08\0\0\0\x01\0\0\0DATA\0\0\0\0\0\0\0\0";

const REMOVAL: &[u8] = b"rDMD\x01\0\0\0\x01\0\0\0";

const REPLY: &[u8] = b"rDrd\x01\0\0\0\0\0\0\0";

/// A default printer without a PnP name, with two bytes of each other field.
const PRINTER: &[u8] = b"\x02\0\0\0\0\0\0\0\0\0\0\0\x02\0\0\0\x02\0\0\0\x02\0\0\0abcdef";

fn bytes(rt: &(impl Abort + AllocGlobal), of: &[u8]) -> Bytes {
    Bytes::of(of.to_vec(rt.alloc()).expect(rt, "memory for bytes"))
}

/// The list that `DRIVE_LIST` is.
fn drive_list(rt: &(impl Abort + AllocGlobal)) -> DeviceList {
    let drive = Announce {
        kind: 8,
        id: 1,
        dos: *b"DATA\0\0\0\0",
        body: bytes(rt, b""),
    };
    let mut devices = Vec::new(rt.alloc());
    devices.push(drive).expect(rt, "memory for a device");
    Items::of(devices)
}

/// The data that `PRINTER` is.
fn printer(rt: &(impl Abort + AllocGlobal)) -> PrinterInfo {
    PrinterInfo {
        flags: 2,
        page: 0,
        pnp: bytes(rt, b""),
        driver: bytes(rt, b"ab"),
        name: bytes(rt, b"cd"),
        config: bytes(rt, b"ef"),
    }
}

/// What is read of a list: the kind, the id, the DOS name and the data of its one device, and the count of ignored bytes.
fn one_device(
    rt: &(impl Abort + AllocGlobal),
    message: &[u8],
    kind: u32,
    data: &[u8],
    ignored: u32,
) {
    let (list, tail) = read_list(rt.alloc(), message).expect(rt, "a list");
    assert!(rt;
        matches!(
            list.as_slice(),
            [device] if device.kind == kind
                && device.id == 1
                && device.dos == *b"DATA\0\0\0\0"
                && device.body.as_slice() == data
        )
    );
    assert_eq!(rt; tail, ignored);
}

/// The fault of a list.
fn list_fault(rt: &(impl Abort + AllocGlobal), message: &[u8]) -> Option<Bad> {
    match read_list(rt.alloc(), message) {
        Err(ReadNo::Bad(bad)) => Some(bad),
        _ => None,
    }
}

#[test]
fn writes_a_list(rt: HostRuntime) {
    let list = drive_list(&rt);
    assert!(rt; can_write_list(&list) && list_size(&list) == 28);
    let message = write_list(rt.alloc(), &list).expect(&rt, "memory for a message");
    assert_eq!(rt; message.as_slice(), DRIVE_LIST);
    let mut out = Vec::new(rt.alloc());
    put_list(&mut out, &list).expect(&rt, "memory for a message");
    assert_eq!(rt; out.as_slice(), DRIVE_LIST);
}

#[test]
fn reads_lists(rt: HostRuntime) {
    one_device(&rt, DRIVE_LIST, 8, b"", 0);
    // A printer with two bytes of data, and a byte after the list.
    let printing = b"rDAD\x01\0\0\0\x04\0\0\0\x01\0\0\0DATA\0\0\0\0\x02\0\0\0ab!";
    one_device(&rt, printing, 4, b"ab", 1);
    let (list, tail) = read_list(rt.alloc(), b"rDAD\0\0\0\0").expect(&rt, "a list");
    assert_eq!(rt; (list.as_slice().len(), tail), (0, 0));
}

#[test]
fn names_faults_of_lists(rt: HostRuntime) {
    let rows: [(&[u8], u32, Why); 6] = [
        (
            b"rDAD\x01\x01\0\0\x08\0\0\0\x01\0\0\0DATA\0\0\0\0\0\0\0\0",
            4,
            Why::Count,
        ),
        (b"xDAD\0\0\0\0", 0, Why::Component),
        (b"rDMD\0\0\0\0", 2, Why::Packet),
        (b"rDAD\0\0\0", 4, Why::Short),
        (
            b"rDAD\x01\0\0\0\x08\0\0\0\x01\0\0\0DATA\0\0\0",
            16,
            Why::Short,
        ),
        (
            b"rDAD\x01\0\0\0\x04\0\0\0\x01\0\0\0DATA\0\0\0\0\x02\0\0\0a",
            28,
            Why::Short,
        ),
    ];
    for (message, at, why) in rows {
        assert_eq!(rt; list_fault(&rt, message), Some(Bad { at, why }));
    }
}

#[test]
fn removes_devices(rt: HostRuntime) {
    let ids = Items::of([1u32].to_vec(rt.alloc()).expect(&rt, "memory for ids"));
    assert!(rt; can_write_removal(&ids));
    let message = write_removal(rt.alloc(), &ids).expect(&rt, "memory for a message");
    assert_eq!(rt; message.as_slice(), REMOVAL);
    let mut out = Vec::new(rt.alloc());
    put_removal(&mut out, &ids).expect(&rt, "memory for a message");
    assert_eq!(rt; out.as_slice(), REMOVAL);
    let (read, tail) = read_removal(rt.alloc(), REMOVAL).expect(&rt, "a removal");
    assert_eq!(rt; (read.as_slice(), tail), ([1u32].as_slice(), 0));
}

#[test]
fn replies_to_devices(rt: HostRuntime) {
    let reply = DeviceReply {
        id: 1,
        code: Status::SUCCESS,
    };
    let message = write_reply(rt.alloc(), &reply).expect(&rt, "memory for a message");
    assert_eq!(rt; message.as_slice(), REPLY);
    let mut out = Vec::new(rt.alloc());
    put_reply(&mut out, &reply).expect(&rt, "memory for a message");
    assert_eq!(rt; out.as_slice(), REPLY);
    assert_eq!(rt; read_reply(REPLY), Ok((reply, 0)));
    let at = 8;
    let why = Why::Short;
    assert_eq!(rt; read_reply(b"rDrd\x01\0\0\0\0\0\0"), Err(Bad { at, why }));
}

#[test]
fn writes_a_printer(rt: HostRuntime) {
    let info = printer(&rt);
    assert!(rt; can_write_printer(&info));
    let body = write_printer(rt.alloc(), &info).expect(&rt, "memory for data");
    assert_eq!(rt; body.as_slice(), PRINTER);
    let mut out = Vec::new(rt.alloc());
    put_printer(&mut out, &info).expect(&rt, "memory for data");
    assert_eq!(rt; out.as_slice(), PRINTER);
}

#[test]
fn reads_printers(rt: HostRuntime) {
    assert!(rt;
        matches!(
            read_printer(rt.alloc(), PRINTER),
            Ok((PrinterInfo { flags: 2, page: 0, pnp, driver, name, config }, 0))
                if pnp.as_slice() == b"".as_slice()
                    && driver.as_slice() == b"ab".as_slice()
                    && name.as_slice() == b"cd".as_slice()
                    && config.as_slice() == b"ef".as_slice()
        )
    );
    assert!(rt;
        matches!(
            read_printer(rt.alloc(), &[0; 23]),
            Err(ReadNo::Bad(Bad {
                at: 20,
                why: Why::Short
            }))
        )
    );
}
