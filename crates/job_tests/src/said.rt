// Jobs that are read, and what they say.
use cells::cell::{Cell, KnownCell, Mark};
use job::Make;
use job::read::read;
use std::test::Fail;

const JOB: &[u8] = b"# a comment, \xff and all
limit 1000000\r
table 0 1 0 0\t8 2 0 0 # the first two rows

table 4294967295
cell 255 -2147483648 2147483647 free -0007
  cell 1 -5 5 fixed unset   #the rest is ignored \xff
board sheet 6 4 3 0 7
board cover:10:20 0 1000000
board neighbours:064 6 4 50
";

#[test]
fn parts(rt: HostRuntime) -> Result<(), Fail> {
    let job = read(rt.alloc(), JOB)?;
    assert_eq!(rt; job.limit, 1_000_000);
    assert!(rt; job.table.as_slice() == [0, 1, 0, 0, 8, 2, 0, 0, 4_294_967_295].as_slice());
    assert_eq!(rt; job.cells[0], Cell::Unknown);
    assert_eq!(rt; job.cells[255], Cell::Known(KnownCell::widest(Some(-7))));
    let fixed = KnownCell {
        lowest: -5,
        highest: 5,
        mark: Mark::Fixed,
        content: None,
    };
    assert_eq!(rt; job.cells[1], Cell::Known(fixed));
    assert_eq!(rt; job.boards.len(), 3);
    Ok(())
}

#[test]
fn boards(rt: HostRuntime) -> Result<(), Fail> {
    let job = read(rt.alloc(), JOB)?;
    assert!(rt; job.boards.len() == 3);
    let first = &job.boards[0];
    assert_eq!(rt; first.line, 8);
    assert_eq!(rt; first.make, Make::Sheet);
    assert_eq!(rt; first.control, 6);
    assert_eq!(rt; first.results, 4);
    assert!(rt; first.slices.as_slice() == [3, 0, 7].as_slice());
    assert_eq!(rt; job.boards[1].make, Make::Cover(10, 20));
    assert_eq!(rt; job.boards[1].results, 1_000_000);
    assert_eq!(rt; job.boards[2].make, Make::Neighbours(64));
    Ok(())
}

#[test]
fn pairs_before_their_cells(rt: HostRuntime) -> Result<(), Fail> {
    let text = b"board pairs 6 4 1\nlimit 0\ncell 1 -2147483648 2147483647 free 0";
    let job = read(rt.alloc(), text)?;
    assert!(rt; job.boards.len() == 1);
    assert_eq!(rt; job.boards[0].make, Make::Pairs);
    Ok(())
}

#[test]
fn makes_as_printed(rt: HostRuntime) -> Result<(), Fail> {
    let heap = rt.alloc();
    assert!(rt; Make::Sheet.to_string(heap)?.as_str() == "sheet");
    assert!(rt; Make::Cover(10, 20).to_string(heap)?.as_str() == "cover:10:20");
    assert!(rt; Make::Neighbours(64).to_string(heap)?.as_str() == "neighbours:64");
    assert!(rt; Make::Pairs.to_string(heap)?.as_str() == "pairs");
    Ok(())
}
