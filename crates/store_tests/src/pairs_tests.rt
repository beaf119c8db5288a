// The pair list at its edges.
use cells::cell::Cell;
use cells::fault::StoreFault;
use pair_list::pairs::PairList;
use store::store::Store;

#[test]
fn first_pair_counts(rt: HostRuntime) {
    let mut words = [3, 10, 255, 7, 3, 20];
    let mut list = PairList::new(&mut words);
    assert_eq!(rt; list.tell(3).read(3), Ok(10));
    assert_eq!(rt; list.put(3, i32::MIN), Ok(()));
    assert_eq!(rt; list.put(255, i32::MAX), Ok(()));
    assert_eq!(rt; list.put(20, 1), Err(StoreFault::UnknownLocation(20)));
    assert_eq!(rt; words, [3, i32::MIN, 255, i32::MAX, 3, 20]);
}

#[test]
fn words_that_count_for_nothing(rt: HostRuntime) {
    let mut words = [-1, 5, 256, 6, 0, 8, 9];
    let list = PairList::new(&mut words);
    assert_eq!(rt; list.tell(0).read(0), Ok(8));
    assert_eq!(rt; list.tell(5), Cell::Unknown);
    assert_eq!(rt; list.tell(255), Cell::Unknown);
    assert_eq!(rt; list.tell(9), Cell::Unknown);
}

#[test]
fn no_words(rt: HostRuntime) {
    let mut words: [i32; 0] = [];
    let mut list = PairList::new(&mut words);
    assert_eq!(rt; list.tell(0), Cell::Unknown);
    assert_eq!(rt; list.put(0, 1), Err(StoreFault::UnknownLocation(0)));
}
