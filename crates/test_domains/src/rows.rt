use abstraction_domain::ClassRow;
use std::alloc::Global;
use std::process::Abort;

/// Returns the number of classes of a row, or the index of the first class that is not numbered in order.
fn counted(rt: &impl Abort, alloc: Global, classes: &[u32]) -> Result<usize, usize> {
    let given = Vec::from_slice(alloc, classes).expect(rt, "memory");
    match ClassRow::new(7, given) {
        Ok(row) => {
            assert!(rt; row.variable() == 7 && row.classes() == classes, "the row");
            Ok(row.class_count())
        }
        Err(fault) => {
            assert!(rt; fault.classes.as_slice() == classes, "given back");
            Err(fault.place)
        }
    }
}

#[test]
fn classes_are_numbered_in_order(rt: HostRuntime) {
    let alloc = rt.alloc();
    assert_eq!(rt; counted(&rt, alloc, &[0, 1, 1, 2]), Ok(3));
    assert_eq!(rt; counted(&rt, alloc, &[0, 1, 0, 2]), Ok(3));
    assert_eq!(rt; counted(&rt, alloc, &[0, 0, 0]), Ok(1));
    assert_eq!(rt; counted(&rt, alloc, &[]), Ok(0));
}

#[test]
fn first_class_out_of_order(rt: HostRuntime) {
    let alloc = rt.alloc();
    assert_eq!(rt; counted(&rt, alloc, &[1, 0, 0]), Err(0));
    assert_eq!(rt; counted(&rt, alloc, &[0, 2, 1]), Err(1));
    assert_eq!(rt; counted(&rt, alloc, &[0, 1, 1, 3, 5]), Err(3));
    assert_eq!(rt; counted(&rt, alloc, &[4_294_967_295]), Err(0));
}
