// Jobs that are refused, and for which line.
use job::Wrong;
use job::bad_line::BadLine;
use job::read::read;
use std::alloc::Global;
use std::process::Abort;
use std::test::Fail;

// That the text is refused at that line, for that.
fn refuses(
    rt: &impl Abort,
    heap: Global,
    text: &[u8],
    line: usize,
    wrong: Wrong,
) -> Result<(), Fail> {
    let refused = read(heap, text).err();
    assert_eq!(rt; refused, Some(BadLine { line, wrong }));
    Ok(())
}

#[test]
fn fields(rt: HostRuntime) -> Result<(), Fail> {
    let heap = rt.alloc();
    refuses(&rt, heap, b"\nlimits 3", 2, Wrong::UnknownWord)?;
    refuses(&rt, heap, b"limit \x0b 3", 1, Wrong::BadByte)?;
    refuses(&rt, heap, b"limit", 1, Wrong::Missing)?;
    refuses(&rt, heap, b"limit 3 4", 1, Wrong::TooMany)?;
    refuses(&rt, heap, b"limit 3#", 1, Wrong::NotWord)?;
    refuses(&rt, heap, b"limit 4294967296", 1, Wrong::NotWord)?;
    refuses(&rt, heap, b"limit 3\nlimit 3", 2, Wrong::SecondLimit)?;
    refuses(&rt, heap, b"table 1 2 -3", 1, Wrong::NotWord)
}

#[test]
fn cells(rt: HostRuntime) -> Result<(), Fail> {
    let heap = rt.alloc();
    refuses(&rt, heap, b"cell 256 0 1 free 0", 1, Wrong::NotLocation)?;
    refuses(
        &rt,
        heap,
        b"cell 1 0 2147483648 free 0",
        1,
        Wrong::NotSigned,
    )?;
    refuses(&rt, heap, b"cell 1 0 1 Free 0", 1, Wrong::NotMark)?;
    refuses(&rt, heap, b"cell 1 0 1 free set", 1, Wrong::NotContent)?;
    refuses(&rt, heap, b"cell 1 0 1 free # 0", 1, Wrong::Missing)?;
    refuses(&rt, heap, b"cell 1 2 1 free unset", 1, Wrong::LimitsCross)?;
    refuses(&rt, heap, b"cell 1 0 1 fixed 2", 1, Wrong::OutsideLimits)?;
    refuses(
        &rt,
        heap,
        b"cell 1 0 1 free 0\n\ncell 01 0 1 free 0",
        3,
        Wrong::SecondCell,
    )
}

#[test]
fn boards(rt: HostRuntime) -> Result<(), Fail> {
    let heap = rt.alloc();
    refuses(&rt, heap, b"board sheets 6 4", 1, Wrong::UnknownMake)?;
    refuses(&rt, heap, b"board sheet:1 6 4", 1, Wrong::BadParameters)?;
    refuses(&rt, heap, b"board cover:1 6 4", 1, Wrong::BadParameters)?;
    refuses(&rt, heap, b"board cover:1:2:3 6 4", 1, Wrong::BadParameters)?;
    refuses(
        &rt,
        heap,
        b"board neighbours:256 6 4",
        1,
        Wrong::BadParameters,
    )?;
    refuses(&rt, heap, b"board sheet 6", 1, Wrong::Missing)?;
    refuses(&rt, heap, b"board sheet 6 1000001", 1, Wrong::TooManyPlaces)?;
    refuses(&rt, heap, b"board sheet 6 4 1 x", 1, Wrong::NotWord)
}

#[test]
fn whole(rt: HostRuntime) -> Result<(), Fail> {
    let heap = rt.alloc();
    refuses(&rt, heap, b"", 1, Wrong::NoLimit)?;
    refuses(&rt, heap, b"board sheet 6 4\n\n", 2, Wrong::NoLimit)?;
    refuses(&rt, heap, b"limit 3\n", 1, Wrong::NoBoard)?;
    refuses(
        &rt,
        heap,
        b"limit 3\nboard sheet 6 4\nboard pairs 6 4\ncell 1 0 1 free 0",
        3,
        Wrong::UnfitForPairs,
    )?;
    refuses(
        &rt,
        heap,
        b"cell 1 -2147483648 2147483647 free unset\nboard pairs 6 4",
        2,
        Wrong::UnfitForPairs,
    )
}

#[test]
fn message(rt: HostRuntime) -> Result<(), Fail> {
    let bad = BadLine {
        line: 4,
        wrong: Wrong::Missing,
    };
    let told = bad.to_string(rt.alloc())?;
    assert!(rt; told.as_str() == "line 4: a field is missing");
    Ok(())
}
