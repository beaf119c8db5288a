// The sheet at its edges.
use cells::cell::{Cell, KnownCell, Mark};
use cells::fault::StoreFault;
use sheet::record::Record;
use sheet::sheet::Sheet;
use store::alike::alike;
use store::known::KnownCells;
use store::store::Store;

// A free cell from -3 to 3 that holds nothing.
fn narrow() -> KnownCell {
    KnownCell {
        lowest: -3,
        highest: 3,
        mark: Mark::Free,
        content: None,
    }
}

#[test]
fn first_and_last_location(rt: HostRuntime) {
    let mut records = [Record::from(narrow()); 300];
    let mut sheet = Sheet::new(&mut records);
    assert_eq!(rt; sheet.put(0, -3), Ok(()));
    assert_eq!(rt; sheet.put(255, 3), Ok(()));
    assert_eq!(rt; sheet.tell(0).read(0), Ok(-3));
    assert_eq!(rt; sheet.tell(1).read(1), Err(StoreFault::UnsetCell(1)));
    assert_eq!(rt; sheet.tell(255).read(255), Ok(3));
    assert_eq!(rt; records[255], Record::from(narrow()).with_number(3));
    assert_eq!(rt; records[256], Record::from(narrow()));
}

#[test]
fn no_records(rt: HostRuntime) {
    let mut records: [Record; 0] = [];
    let mut sheet = Sheet::new(&mut records);
    assert_eq!(rt; sheet.tell(0), Cell::Unknown);
    assert_eq!(rt; sheet.put(255, 0), Err(StoreFault::UnknownLocation(255)));
}

#[test]
fn asked_in_order(rt: HostRuntime) {
    let fixed = KnownCell {
        mark: Mark::Fixed,
        ..narrow()
    };
    let mut records = [Record::blank(), Record::from(fixed), Record::from(narrow())];
    let mut sheet = Sheet::new(&mut records);
    assert_eq!(rt; sheet.put(0, 4), Err(StoreFault::UnknownLocation(0)));
    assert_eq!(rt; sheet.put(1, 4), Err(StoreFault::FixedCell(1)));
    assert_eq!(rt; sheet.put(2, 4), Err(StoreFault::OutsideLimits(2)));
    assert_eq!(rt; sheet.put(2, -4), Err(StoreFault::OutsideLimits(2)));
    assert_eq!(rt; sheet.tell(2), Cell::Known(narrow()));
}

#[test]
fn records_that_do_not_hold_together(rt: HostRuntime) {
    let crossed = KnownCell {
        lowest: 4,
        ..narrow()
    };
    let point = KnownCell {
        lowest: 3,
        ..narrow()
    };
    let outside = Record::from(narrow()).with_number(4);
    let mut records = [Record::from(crossed), Record::from(point), outside];
    let sheet = Sheet::new(&mut records);
    assert_eq!(rt; sheet.tell(0), Cell::Unknown);
    assert_eq!(rt; sheet.tell(1), Cell::Known(point));
    assert_eq!(rt; sheet.tell(2), Cell::Unknown);
}

#[test]
fn alike_by_cells(rt: HostRuntime) {
    let fixed = KnownCell {
        mark: Mark::Fixed,
        ..narrow()
    };
    let mut ones = [Record::from(narrow()); 256];
    let mut others = [Record::from(narrow()); 256];
    // a number that is not set is no part of the cell
    others[7].number = 1;
    assert!(rt; alike(&Sheet::new(&mut ones), &Sheet::new(&mut others)));
    others[255] = Record::from(fixed);
    assert!(rt; !alike(&Sheet::new(&mut ones), &Sheet::new(&mut others)));
}

#[test]
fn known_cells_in_order(rt: HostRuntime) {
    let mut records = [Record::blank(); 256];
    records[3] = Record::from(narrow());
    records[255] = Record::from(narrow());
    let sheet = Sheet::new(&mut records);
    let mut known = KnownCells::of(&sheet);
    assert_eq!(rt; known.next(), Some((3, narrow())));
    assert_eq!(rt; known.next(), Some((255, narrow())));
    assert_eq!(rt; known.next(), None);
}
