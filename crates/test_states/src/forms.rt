//! Forms of states: every form returns what was packed, and words of no state are not a form.

ghost use Rattle.fdr.specs.Tasks.{IsState};

use fdr::FdrTask;
use packed::{Bits, Layout, Plain, StateForm, TaskMasks};
use std::alloc::{AllocError, Global};
use std::process::Abort;
use std::test::Fail;
use testing_tasks::{fact, operator, states, task};

/// Checks the form of one state, which is then made that of another.
fn keeps_states<F: StateForm + Drop>(
    rt: &impl Abort,
    alloc: Global,
    layout: &Layout,
    first: &[u32],
    second: &[u32],
) -> Result<(), AllocError>
    requires first { IsState layout.now first.now }
    requires second { IsState layout.now second.now }
{
    assert!(rt; F::fits(layout), "states have this form");
    let mut values = vec![in alloc; 9; layout.variable_count()].expect(rt, "memory");
    let mut form = F::pack(alloc, layout, first)?;
    let kept = form.copy(alloc)?;
    assert!(rt; form == kept, "a copy");
    form.repack(layout, second);
    assert!(rt; form != kept, "another state");
    assert!(rt; form.is_form(layout), "a form of another state");
    form.unpack(layout, &mut values);
    assert_eq!(rt; values.as_slice(), second, "what was packed last");
    for (variable, value) in second.iter().enumerate() {
        assert_eq!(rt; form.value(layout, variable), *value, "one value of it");
    }
    kept.unpack(layout, &mut values);
    assert_eq!(rt; values.as_slice(), first, "what was copied");
    form.repack(layout, first);
    assert!(rt; form == kept, "the same state again");
    assert!(rt; form.is_form(layout), "a form of the layout");
    Ok(())
}

/// Checks the forms of two states of variables with these ranges.
fn keeps<F: StateForm + Drop>(
    rt: &impl Abort,
    alloc: Global,
    ranges: &[usize],
    first: &[u32],
    second: &[u32],
) {
    let layout = layout_of(rt, alloc, ranges, first);
    assert!(rt; layout.is_state(first) && layout.is_state(second), "states");
    keeps_states::<F>(rt, alloc, &layout, first, second).expect(rt, "memory");
}

/// Returns the layout of states of variables with these ranges, of which `state` is one.
fn layout_of(rt: &impl Abort, alloc: Global, ranges: &[usize], state: &[u32]) -> Layout {
    let task = states(alloc, ranges, state)
        .expect(rt, "memory")
        .expect(rt, "a task");
    Layout::new(alloc, &task).expect(rt, "memory")
}

/// Returns the form of a state of variables with these ranges.
fn form_of<F: StateForm + Drop>(
    rt: &impl Abort,
    alloc: Global,
    ranges: &[usize],
    state: &[u32],
) -> F {
    let layout = layout_of(rt, alloc, ranges, state);
    assert!(rt;
        layout.is_state(state) && F::fits(&layout),
        "a state of this form"
    );
    F::pack(alloc, &layout, state).expect(rt, "memory")
}

/// Returns whether the form of a state over variables with some ranges is one over variables with other ranges.
fn is_also<F: StateForm + Drop>(
    rt: &impl Abort,
    alloc: Global,
    ranges: &[usize],
    state: &[u32],
    others: &[usize],
    other: &[u32],
) -> bool {
    let form: F = form_of(rt, alloc, ranges, state);
    form.is_form(&layout_of(rt, alloc, others, other))
}

/// Checks which values are states of two variables, of 2 and 3 values.
fn tells_states(rt: &impl Abort, layout: &Layout) {
    assert!(rt;
        layout.is_state(&[1, 2]) && layout.is_state(&[1, 0]),
        "states"
    );
    assert!(rt;
        !layout.is_state(&[2, 0]) && !layout.is_state(&[0, 3]),
        "a value too large"
    );
    assert!(rt;
        !layout.is_state(&[1]) && !layout.is_state(&[1, 2, 0]),
        "other widths"
    );
}

#[test]
fn which_values_are_states(rt: HostRuntime) {
    tells_states(&rt, &layout_of(&rt, rt.alloc(), &[2, 3], &[0, 0]));
}

#[test]
fn two_variables(rt: HostRuntime) {
    keeps::<Plain>(&rt, rt.alloc(), &[2, 3], &[1, 2], &[1, 0]);
    keeps::<Bits<1>>(&rt, rt.alloc(), &[2, 3], &[1, 2], &[1, 0]);
    keeps::<Bits<2>>(&rt, rt.alloc(), &[2, 3], &[1, 2], &[1, 0]);
}

/// Checks the forms of states of `width` variables, of three values each.
fn keeps_wide(rt: &impl Abort, alloc: Global, width: usize) {
    let ranges = vec![in alloc; 3; width].expect(rt, "memory");
    let first = vec![in alloc; 0u32; width].expect(rt, "memory");
    let second = vec![in alloc; 2u32; width].expect(rt, "memory");
    keeps::<Plain>(rt, alloc, &ranges, &first, &second);
    keeps::<Bits<1>>(rt, alloc, &ranges, &first, &second);
}

/// States of the greatest number of values that are stored in the form itself, and of one more.
#[test]
fn wide_states(rt: HostRuntime) {
    keeps_wide(&rt, rt.alloc(), 12);
    keeps_wide(&rt, rt.alloc(), 13);
}

/// A variable of one value takes no bits, also after the last bit of a word; one of 65,536 values takes 16.
#[test]
fn ranges_of_each_kind(rt: HostRuntime) {
    let ranges = [1, 2, 3, 65_536, 1];
    let first = [0, 1, 2, 65_535, 0];
    let second = [0, 0, 1, 32_768, 0];
    keeps::<Plain>(&rt, rt.alloc(), &ranges, &first, &second);
    keeps::<Bits<1>>(&rt, rt.alloc(), &ranges, &first, &second);
    let ranges = [65_536, 65_536, 65_536, 65_536, 1, 1];
    let first = [65_535, 0, 1, 65_535, 0, 0];
    let second = [0, 65_535, 32_768, 1, 0, 0];
    keeps::<Plain>(&rt, rt.alloc(), &ranges, &first, &second);
    keeps::<Bits<1>>(&rt, rt.alloc(), &ranges, &first, &second);
}

/// Checks the numbers of words that states of this layout take.
fn takes_two_words(rt: &impl Abort, layout: &Layout) {
    assert_eq!(rt; layout.word_count(), 2);
    assert!(rt; Plain::fits(layout) && Bits::<3>::fits(layout));
    assert!(rt; !Bits::<1>::fits(layout), "one word is too few");
}

/// A field that does not fit in the rest of a word begins the next one.
#[test]
fn fields_of_a_second_word(rt: HostRuntime) {
    let mut ranges = [2; 64];
    let mut first = [1; 64];
    let mut second = [0; 64];
    keeps::<Plain>(&rt, rt.alloc(), &ranges, &first, &second);
    keeps::<Bits<1>>(&rt, rt.alloc(), &ranges, &first, &second);
    ranges[63] = 3;
    first[63] = 2;
    second[62] = 1;
    keeps::<Plain>(&rt, rt.alloc(), &ranges, &first, &second);
    keeps::<Bits<2>>(&rt, rt.alloc(), &ranges, &first, &second);
    takes_two_words(&rt, &layout_of(&rt, rt.alloc(), &ranges, &first));
}

/// 12 variables of 5 bits in each word.
#[test]
fn many_variables(rt: HostRuntime) {
    let ranges = vec![in rt.alloc(); 17; 1_000].expect(&rt, "memory");
    let first = vec![in rt.alloc(); 16u32; 1_000].expect(&rt, "memory");
    let second = vec![in rt.alloc(); 9u32; 1_000].expect(&rt, "memory");
    keeps::<Plain>(&rt, rt.alloc(), &ranges, &first, &second);
    keeps::<Bits<84>>(&rt, rt.alloc(), &ranges, &first, &second);
}

/// Returns whether a form of the state of no values is equal to its copy, and a form of its layout.
fn is_kept_without_values<F: StateForm + Drop>(
    rt: &impl Abort,
    alloc: Global,
    layout: &Layout,
) -> bool {
    assert!(rt; layout.is_state(&[]) && F::fits(layout));
    let form = F::pack(alloc, layout, &[]).expect(rt, "memory");
    let copy = form.copy(alloc).expect(rt, "memory");
    form == copy && form.is_form(layout)
}

#[test]
fn states_of_no_values(rt: HostRuntime) {
    let layout = layout_of(&rt, rt.alloc(), &[], &[]);
    assert!(rt; layout.is_state(&[]) && !layout.is_state(&[0]));
    assert!(rt; is_kept_without_values::<Plain>(&rt, rt.alloc(), &layout));
    assert!(rt; is_kept_without_values::<Bits<1>>(&rt, rt.alloc(), &layout));
}

/// Words that are those of a state over some variables may be those of no state over others.
#[test]
fn words_of_no_state(rt: HostRuntime) {
    let alloc = rt.alloc();
    assert!(rt;
        is_also::<Bits<1>>(&rt, alloc, &[4], &[2], &[3], &[0]),
        "a value in range"
    );
    assert!(rt;
        !is_also::<Bits<1>>(&rt, alloc, &[4], &[3], &[3], &[0]),
        "a value at its range"
    );
    assert!(rt;
        is_also::<Bits<1>>(&rt, alloc, &[2, 2], &[1, 0], &[2], &[0]),
        "no bit left over"
    );
    assert!(rt;
        !is_also::<Bits<1>>(&rt, alloc, &[2, 2], &[0, 1], &[2], &[0]),
        "a bit left over"
    );
    assert!(rt;
        !is_also::<Bits<1>>(&rt, alloc, &[2], &[1], &[1], &[0]),
        "a bit although none is used"
    );
    assert!(rt;
        !is_also::<Plain>(&rt, alloc, &[4], &[3], &[3], &[0]),
        "a plain value at its range"
    );
}

#[test]
fn words_of_no_state_of_two_words(rt: HostRuntime) {
    let alloc = rt.alloc();
    let ranges = [65_536, 65_536, 65_536, 65_536, 65_536];
    assert!(rt;
        !is_also::<Bits<1>>(&rt, alloc, &[2], &[0], &ranges, &[0, 0, 0, 0, 0]),
        "more than one word"
    );
    assert!(rt;
        !is_also::<Bits<2>>(&rt, alloc, &ranges, &[0, 0, 0, 0, 1], &[2], &[0]),
        "a bit of a second word"
    );
}

/// Returns the task of six variables whose bits are in two words, without preconditions: its operators set the first
/// variable, the last, both, one in each word and one between them, and none. The goal is about both words.
fn task_in_two_words(alloc: Global) -> Result<Option<FdrTask>, AllocError> {
    let ranges = [3, 65_536, 65_536, 65_536, 1, 65_536];
    let mut operators = Vec::new(alloc);
    operators.push(operator(alloc, &[], &[fact(0, 2)])?)?;
    operators.push(operator(alloc, &[], &[fact(5, 65_535)])?)?;
    operators.push(operator(alloc, &[], &[fact(0, 1), fact(5, 7)])?)?;
    operators.push(operator(
        alloc,
        &[],
        &[fact(5, 0), fact(1, 9), fact(4, 0), fact(3, 65_535)],
    )?)?;
    operators.push(operator(alloc, &[], &[])?)?;
    let goal = [fact(0, 2), fact(3, 6), fact(5, 65_535), fact(2, 5)];
    task(
        alloc,
        &ranges,
        &[0, 65_535, 5, 6, 0, 65_535],
        &goal,
        operators,
    )
}

/// Checks the form after each operator, and whether it is one of a goal state, against the task.
fn follows_operators<F: StateForm + Drop>(
    rt: &impl Abort,
    alloc: Global,
    task: &FdrTask,
) -> Result<(), AllocError> {
    let layout = Layout::new(alloc, task)?;
    let masks = TaskMasks::new(alloc, &layout, task)?;
    assert!(rt; F::fits(&layout), "states have this form");
    let form = F::pack(alloc, &layout, task.initial())?;
    for operator in 0..task.operators().len() {
        let mut values = Vec::from_slice(alloc, task.initial())?;
        assert!(rt; task.apply(operator, &mut values), "no precondition");
        let after = form.after(alloc, &masks, operator)?;
        assert!(rt; layout.is_state(&values), "a state");
        assert!(rt; after == F::pack(alloc, &layout, &values)?, "its successor");
        assert_eq!(rt; after.is_goal(&masks), task.is_goal(&values));
    }
    Ok(())
}

#[test]
fn operators_and_goals_in_two_words(rt: HostRuntime) -> Result<(), Fail> {
    let task = task_in_two_words(rt.alloc())?.expect(&rt, "a task");
    follows_operators::<Plain>(&rt, rt.alloc(), &task)?;
    follows_operators::<Bits<2>>(&rt, rt.alloc(), &task)?;
    follows_operators::<Bits<4>>(&rt, rt.alloc(), &task)?;
    Ok(())
}
