use identity::access::Access;
use identity::decimal::decimal;
use identity::snssai::Snssai;
use identity::supi::Supi;
use identity::value::Value;

fn slice(text: &str) -> Option<Snssai> {
    Snssai::read(text.as_bytes())
}

fn ue(text: &str) -> Option<Supi> {
    Supi::read(text.as_bytes())
}

#[test]
fn slices_in_both_forms(rt: HostRuntime) {
    assert_eq!(rt; slice("01-0000A1"), Snssai::new(1, 0xA1));
    assert_eq!(rt; slice("01"), Snssai::new(1, 0xFF_FFFF));
    assert_eq!(rt; slice("01-FFFFFF"), slice("01"));
    assert_eq!(rt; slice("FF-000000"), Snssai::new(255, 0));
    assert_ne!(rt; slice("01-000000"), slice("01"));
    assert!(rt; slice("00").is_some());
}

#[test]
fn unlawful_slices(rt: HostRuntime) {
    let texts = [
        "",
        "1",
        "001",
        "0a",
        "0G",
        "01-0000a1",
        "01_0000A1",
        "01-0000A",
        "01-0000A10",
        "01-FFFFF/",
        "01-FFFFF:",
        "01-FFFFF@",
        "01\r",
        "0\0",
    ];
    for text in texts {
        assert_eq!(rt; slice(text), None, "{text:?}");
    }
}

#[test]
fn slices_by_their_numbers(rt: HostRuntime) {
    assert!(rt; Snssai::new(0, 0xFF_FFFF).is_some());
    assert!(rt; Snssai::new(0, 0x100_0000).is_none());
}

#[test]
fn subscribers_by_their_digits(rt: HostRuntime) {
    assert!(rt; ue("imsi-0010").is_none());
    assert!(rt; ue("imsi-00101").is_some());
    assert!(rt; ue("imsi-001010000000001").is_some());
    assert!(rt; ue("imsi-0010100000000012").is_none());
    assert!(rt; ue("imsi-999999999999999").is_some());
    assert_ne!(rt; ue("imsi-00101"), ue("imsi-000101"));
    assert_eq!(rt; ue("imsi-00101"), Supi::new(b"00101"));
}

#[test]
fn unlawful_subscribers(rt: HostRuntime) {
    let texts = [
        "",
        "imsi-",
        "00101001",
        "IMSI-00101001",
        "imsi-0010100A",
        "imsi-0010100 ",
        "imsi-0010100\0",
        "nai-00101001",
    ];
    for text in texts {
        assert_eq!(rt; ue(text), None, "{text:?}");
    }
}

#[test]
fn numbers_to_their_bounds(rt: HostRuntime) {
    assert_eq!(rt; u16::read(b"65535"), Some(65535));
    assert_eq!(rt; u16::read(b"65536"), None);
    assert_eq!(rt; u8::read(b"255"), Some(255));
    assert_eq!(rt; u8::read(b"256"), None);
    assert_eq!(rt; u16::read(b"0"), Some(0));
    for text in ["00", "07", "", "-1", "+1", "1A"] {
        assert_eq!(rt; u16::read(text.as_bytes()), None, "{text:?}");
    }
    assert_eq!(rt; u8::read(&[b'9'; 5000]), None);
    assert_eq!(rt; decimal(b"18446744073709551615", u64::MAX), Some(u64::MAX));
    assert_eq!(rt; decimal(b"18446744073709551616", u64::MAX), None);
}

#[test]
fn accesses_by_their_words(rt: HostRuntime) {
    assert_eq!(rt; Access::read(b"3gpp"), Some(Access::ThreeGpp));
    assert_eq!(rt; Access::read(b"non-3gpp"), Some(Access::NonThreeGpp));
    assert_eq!(rt; Access::read(b"3GPP"), None);
    assert_eq!(rt; Access::read(b"both"), None);
    assert_eq!(rt; Access::read(b""), None);
}
