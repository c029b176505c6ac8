//! Steps of a plan, from the names of operators, worked out by hand.

use optplan_pddl::named_step;
use validate::Step;

/// The name of an action and its arguments.
type NamedStep<'a> = (&'a str, &'a [&'a str]);

fn are_texts(texts: &[String], wanted: &[&str]) -> bool {
    texts.len() == wanted.len()
        && texts
            .iter()
            .zip(wanted)
            .all(|(text, want)| text.as_str() == *want)
}

fn is_step(step: &Step, wanted: NamedStep<'_>) -> bool {
    let (name, arguments) = wanted;
    step.name() == name && are_texts(step.arguments(), arguments)
}

/// Names, and the steps that they spell.
const STEPS: &[(&str, NamedStep<'static>)] = &[
    ("go a b", ("go", &["a", "b"])),
    ("wait", ("wait", &[])),
    ("?x{} ~ !", ("?x{}", &["~", "!"])),
];

#[test]
fn steps_are_named(rt: HostRuntime) {
    for (name, wanted) in STEPS {
        let step = named_step(rt.alloc(), name).expect(&rt, "memory");
        let step = step.expect(&rt, "a step");
        assert!(rt; is_step(&step, *wanted), "at {name}");
    }
}

/// Names with a part that is not a plan word.
const NO_STEPS: &[&str] = &[
    "", " ", "go ", " go", "go  b", "Go a", "go A", "go a;b", "(go a)", "go\ta", "g\u{f6}",
];

#[test]
fn other_names_are_no_steps(rt: HostRuntime) {
    for name in NO_STEPS {
        let step = named_step(rt.alloc(), name).expect(&rt, "memory");
        assert!(rt; step.is_none(), "at {name}");
    }
}
