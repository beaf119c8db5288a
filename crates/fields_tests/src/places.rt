// Lines and columns.
use fields::place::{Place, place_of};

#[test]
fn lines_and_columns(rt: HostRuntime) {
    let text = b"ab\ncd\r\n\nef";
    assert_eq!(rt; place_of(text, 0), Place { line: 1, column: 1 });
    assert_eq!(rt; place_of(text, 2), Place { line: 1, column: 3 });
    assert_eq!(rt; place_of(text, 3), Place { line: 2, column: 1 });
    assert_eq!(rt; place_of(text, 7), Place { line: 3, column: 1 });
    assert_eq!(rt; place_of(text, 9), Place { line: 4, column: 2 });
}

#[test]
fn past_the_end(rt: HostRuntime) {
    assert_eq!(rt; place_of(b"", 0), Place { line: 1, column: 1 });
    assert_eq!(rt; place_of(b"ab\nc", 4), Place { line: 2, column: 2 });
    assert_eq!(rt;
        place_of(b"ab\nc", usize::MAX),
        Place { line: 2, column: 2 }
    );
}
