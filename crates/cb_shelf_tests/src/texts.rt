//! The texts of a shelf's faults, of every variant: number and name.

use cb_shelf::ShelfFault;
use cb_test_parts::printed::are_printed;

static OF_SHELVES: [(ShelfFault, &str); 3] = [
    (ShelfFault::Shape, "1 Shape"),
    (ShelfFault::Store, "2 Store"),
    (ShelfFault::Memory, "3 Memory"),
];

#[test]
fn texts_of_faults(rt: HostRuntime) {
    assert!(rt; are_printed(rt.alloc(), &OF_SHELVES));
}
