// What bytes are numbers, and which.
use fields::number::unsigned;
use fields::signed::signed;

#[test]
fn numbers(rt: HostRuntime) {
    assert_eq!(rt; unsigned(b"0"), Some(0));
    assert_eq!(rt; unsigned(b"00012"), Some(12));
    assert_eq!(rt; unsigned(b"4294967295"), Some(4_294_967_295));
    assert_eq!(rt; unsigned(b"00000000004294967295"), Some(4_294_967_295));
}

#[test]
fn no_numbers(rt: HostRuntime) {
    assert_eq!(rt; unsigned(b""), None);
    assert_eq!(rt; unsigned(b"4294967296"), None);
    assert_eq!(rt; unsigned(b"99999999999999999999999999"), None);
    assert_eq!(rt; unsigned(b"+5"), None);
    assert_eq!(rt; unsigned(b"-1"), None);
    assert_eq!(rt; unsigned(b"12a"), None);
    assert_eq!(rt; unsigned(b"1 2"), None);
    assert_eq!(rt; unsigned(b"0x10"), None);
}

#[test]
fn numbers_with_a_sign(rt: HostRuntime) {
    assert_eq!(rt; signed(b"-2147483648"), Some(i32::MIN));
    assert_eq!(rt; signed(b"2147483647"), Some(i32::MAX));
    assert_eq!(rt; signed(b"-0"), Some(0));
    assert_eq!(rt; signed(b"-007"), Some(-7));
    assert_eq!(rt; signed(b"2147483648"), None);
    assert_eq!(rt; signed(b"-2147483649"), None);
    assert_eq!(rt; signed(b"-"), None);
    assert_eq!(rt; signed(b"--1"), None);
    assert_eq!(rt; signed(b"+1"), None);
}
