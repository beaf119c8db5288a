// Whole texts: their fields, their numbers, and the first field that is none.
use fields::iter::Fields;
use fields::read::{ReadError, unsigned_fields};
use fields::span::{Span, next_field};
use std::alloc::Global;
use std::process::Abort;
use std::test::Fail;

// That the text is read as those numbers.
fn reads(rt: &impl Abort, heap: Global, text: &[u8], numbers: &[u32]) -> Result<(), Fail> {
    let v = unsigned_fields(heap, text)?;
    assert!(rt; v.as_slice() == numbers);
    Ok(())
}

// That the text is refused for the field there.
fn refuses(
    rt: &impl Abort,
    heap: Global,
    text: &[u8],
    start: usize,
    end: usize,
) -> Result<(), Fail> {
    let refused = unsigned_fields(heap, text).err();
    assert_eq!(rt; refused, Some(ReadError::NoNumber(Span { start, end })));
    Ok(())
}

#[test]
fn fields(rt: HostRuntime) {
    assert_eq!(rt; next_field(b"", 0), None);
    assert_eq!(rt; next_field(b" \t\r\n\x0b\x0c", 0), None);
    assert_eq!(rt; next_field(b"ab", 0), Some(Span { start: 0, end: 2 }));
    assert_eq!(rt; next_field(b" ab\n", 0), Some(Span { start: 1, end: 3 }));
    assert_eq!(rt; next_field(b"ab cd", 2), Some(Span { start: 3, end: 5 }));
    assert_eq!(rt; next_field(b"ab", 7), None);
}

#[test]
fn fields_in_their_order(rt: HostRuntime) {
    let mut fields = Fields::of(b" ab\n\tcde");
    assert_eq!(rt; fields.next(), Some(Span { start: 1, end: 3 }));
    assert_eq!(rt; fields.next(), Some(Span { start: 5, end: 8 }));
    assert_eq!(rt; fields.next(), None);
    assert_eq!(rt; fields.next(), None);
}

#[test]
fn numbers(rt: HostRuntime) -> Result<(), Fail> {
    let heap = rt.alloc();
    reads(&rt, heap, b"", &[])?;
    reads(&rt, heap, b" \t\r\n\x0b\x0c ", &[])?;
    reads(&rt, heap, b"\n\n 7  \n", &[7])?;
    reads(&rt, heap, b"1 2\r\n3\t4\r\n", &[1, 2, 3, 4])?;
    reads(&rt, heap, b"0 4294967295 00012", &[0, 4_294_967_295, 12])
}

#[test]
fn first_that_is_none(rt: HostRuntime) -> Result<(), Fail> {
    let heap = rt.alloc();
    refuses(&rt, heap, b"1 2\n3 4\n 5 -6 x", 11, 13)?;
    refuses(&rt, heap, b"4294967296", 0, 10)?;
    refuses(&rt, heap, b"1 +5", 2, 4)?;
    refuses(&rt, heap, b"1\xff\n", 0, 2)
}
