// The texts of addresses.

use crate::{Addr, Family, Ip, read_addr, read_ip, write_addr};

const FD00_9: Ip = Ip::V6(0xfd00_0000_0000_0000_0000_0000_0000_0009);

#[test]
fn reads_and_writes_addresses(rt: HostRuntime) {
    let ips: [(&str, Option<Ip>); 13] = [
        ("10.0.0.1", Some(Ip::V4(0x0a00_0001))),
        ("255.255.255.255", Some(Ip::V4(0xffff_ffff))),
        ("10.0.0.256", None),
        ("10.0.0", None),
        ("10.0.0.01", None),
        ("fd00::9", Some(FD00_9)),
        ("::ffff:0a00:1", Some(Ip::V6(0xffff_0a00_0001))),
        (
            "1:2:3:4:5:6:7::",
            Some(Ip::V6(0x0001_0002_0003_0004_0005_0006_0007_0000)),
        ),
        ("1:2:3:4:5:6:7:8::", None),
        ("1::2::3", None),
        ("::1.2.3.4", None),
        ("12345::", None),
        ("", None),
    ];
    for (text, ip) in ips {
        assert_eq!(rt; read_ip(text.as_bytes()), ip, "{text}");
    }
    let addresses: [(&str, &str); 7] = [
        ("10.0.0.1:9000", "10.0.0.1:9000"),
        ("0.0.0.0:0", "0.0.0.0:0"),
        ("255.255.255.255:65535", "255.255.255.255:65535"),
        ("[FD00::9]:9000", "[fd00:0:0:0:0:0:0:9]:9000"),
        ("[fd00::8]:7000", "[fd00:0:0:0:0:0:0:8]:7000"),
        ("[::10:20a]:1", "[0:0:0:0:0:0:10:20a]:1"),
        (
            "[ffff:ffff:ffff:ffff:ffff:ffff:ffff:ffff]:65535",
            "[ffff:ffff:ffff:ffff:ffff:ffff:ffff:ffff]:65535",
        ),
    ];
    for (text, printed) in addresses {
        let addr = read_addr(text.as_bytes()).expect(&rt, "an address");
        let mut into = [0; 47];
        let n = write_addr(addr, &mut into);
        assert_eq!(rt; &into[..n], printed.as_bytes(), "{text}");
    }
    for text in [
        "",
        "10.0.0.1",
        "10.0.0.1:",
        "10.0.0.1:01",
        "10.0.0.1:65536",
        "10.0.0.1:1:2",
        "::1:5",
        "[::1]",
        "[::1]5",
        "[fe80::1%1]:5",
        "[10.0.0.1]:5",
    ] {
        assert_eq!(rt; read_addr(text.as_bytes()), None, "{text}");
    }
    let addr = Addr {
        ip: FD00_9,
        port: 1,
    };
    assert_eq!(rt; addr.ip.family(), Family::Six);
}
