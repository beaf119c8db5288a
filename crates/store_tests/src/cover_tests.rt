// The cover at its edges.
use cells::fault::StoreFault;
use pair_list::pairs::PairList;
use store::cover::Cover;
use store::store::Store;

#[test]
fn both_ends_are_covered(rt: HostRuntime) {
    let mut words = [0, 1, 4, 1, 5, 1, 7, 1, 8, 1];
    let mut cover = Cover::new(PairList::new(&mut words), 5, 7);
    assert_eq!(rt; cover.put(4, 2), Ok(()));
    assert_eq!(rt; cover.put(5, 2), Err(StoreFault::FixedCell(5)));
    assert_eq!(rt; cover.put(6, 2), Err(StoreFault::UnknownLocation(6)));
    assert_eq!(rt; cover.put(7, 2), Err(StoreFault::FixedCell(7)));
    assert_eq!(rt; cover.put(8, 2), Ok(()));
    assert_eq!(rt; cover.tell(7).read(7), Ok(1));
}

#[test]
fn first_past_last(rt: HostRuntime) {
    let mut words = [5, 1, 6, 1];
    let mut cover = Cover::new(PairList::new(&mut words), 6, 5);
    assert_eq!(rt; cover.put(5, 2), Ok(()));
    assert_eq!(rt; cover.put(6, 2), Ok(()));
}
