// The neighbours at their edges, and a nest of all makes.
use cells::cell::{Cell, KnownCell};
use cells::fault::StoreFault;
use pair_list::pairs::PairList;
use sheet::record::Record;
use sheet::sheet::Sheet;
use store::cover::Cover;
use store::neighbours::Neighbours;
use store::store::Store;

#[test]
fn split_at_0(rt: HostRuntime) {
    let mut left = [0, 1];
    let mut right = [0, 2, 255, 3];
    let both = Neighbours::new(PairList::new(&mut left), PairList::new(&mut right), 0);
    assert_eq!(rt; both.tell(0).read(0), Ok(2));
    assert_eq!(rt; both.tell(255).read(255), Ok(3));
}

#[test]
fn split_at_255(rt: HostRuntime) {
    let mut left = [254, 1, 255, 1];
    let mut right = [0, 2, 1, 3];
    let mut both = Neighbours::new(PairList::new(&mut left), PairList::new(&mut right), 255);
    assert_eq!(rt; both.tell(254).read(254), Ok(1));
    assert_eq!(rt; both.tell(255).read(255), Ok(2));
    assert_eq!(rt; both.put(255, 9), Ok(()));
    assert_eq!(rt; both.tell(255).read(255), Ok(9));
    assert_eq!(rt; both.put(0, 9), Err(StoreFault::UnknownLocation(0)));
}

#[test]
fn a_nest_of_all_makes(rt: HostRuntime) {
    let mut records = [Record::from(KnownCell::widest(None)); 10];
    let mut words = [0, 5, 7, 6];
    let mut sheet = Sheet::new(&mut records);
    let both = Neighbours::new(&mut sheet, PairList::new(&mut words), 10);
    let mut cover = Cover::new(both, 9, 10);
    assert_eq!(rt; cover.put(8, 1), Ok(()));
    assert_eq!(rt; cover.put(9, 1), Err(StoreFault::FixedCell(9)));
    assert_eq!(rt; cover.put(10, 1), Err(StoreFault::FixedCell(10)));
    assert_eq!(rt; cover.put(11, 1), Err(StoreFault::UnknownLocation(11)));
    assert_eq!(rt; cover.put(17, 1), Ok(()));
    assert_eq!(rt; cover.tell(10).read(10), Ok(5));
    assert_eq!(rt; cover.tell(17).read(17), Ok(1));
    assert_eq!(rt; cover.tell(18), Cell::Unknown);
    assert_eq!(rt; cover.into_under().tell(8).read(8), Ok(1));
}
