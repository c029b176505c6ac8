//! Names with their numbers.

use pddl_names::Names;
use std::alloc::Global;
use std::process::Abort;

/// Names in the order in which they are added, each with its number: that of its first addition.
const ADDED: &[(&str, usize)] = &[
    ("ball", 0),
    ("box", 1),
    ("ball", 0),
    ("", 2),
    ("Box", 3),
    ("box", 1),
];

/// Adds the names, and checks the number that each gets.
fn add_all(rt: &impl Abort, alloc: Global, names: &mut Names) {
    for (name, number) in ADDED {
        let given = names.add(alloc, name).expect(rt, "memory");
        assert!(rt; given == *number, "at {name}");
    }
}

/// Returns whether the name has this number.
fn has_number(names: &Names, name: &str, number: usize) -> bool {
    names.place_of(name) == Some(number)
        && names.number_of(name) == number
        && names.name(number) == Some(name)
        && names.contains(name)
}

/// Checks that each name has its number.
fn have_numbers(rt: &impl Abort, names: &Names) {
    for (name, number) in ADDED {
        assert!(rt; has_number(names, name, *number), "at {name}");
    }
}

/// Returns whether the look-up of a name that was not added returns the number past the last.
fn lacks_crate(names: &Names) -> bool {
    names.are_distinct();
    !names.contains("crate")
        && names.place_of("crate").is_none()
        && names.number_of("crate") == 4
        && names.name(4).is_none()
}

#[test]
fn numbers_in_the_order_of_first_addition(rt: HostRuntime) {
    let mut names = Names::new(rt.alloc());
    assert!(rt; names.is_empty());
    add_all(&rt, rt.alloc(), &mut names);
    assert!(rt; names.len() == 4);
    have_numbers(&rt, &names);
    assert!(rt; lacks_crate(&names));
}

#[test]
fn a_copy_is_left_as_it_was(rt: HostRuntime) {
    let mut names = Names::new(rt.alloc());
    add_all(&rt, rt.alloc(), &mut names);
    let copy = names.try_clone().expect(&rt, "memory");
    let given = names.add(rt.alloc(), "crate").expect(&rt, "memory");
    assert!(rt; given == 4);
    have_numbers(&rt, &copy);
    assert!(rt; lacks_crate(&copy));
}
