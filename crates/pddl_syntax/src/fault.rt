//! Faults of a planning task's texts.

ghost use Rattle.std.specs.Prelude.{◌≡◌, ◌↔◌, IsTrue, List, Some, None, []};
ghost use Rattle.pddl_syntax.specs.declared.fault.Fault.{Fault};
ghost use Rattle.pddl_syntax.specs.Faults.{number, precedes, earlier, first_of, faults_if, IsFirst};

/// Which of the two texts of a planning task a fault is in.
#[derive(Clone, Copy, Debug, PartialEq, Eq)]
pub enum PlanningFile {
    Domain,
    Problem,
}

/// The tables and counts of a task that are limited.
#[derive(Clone, Copy, Debug, PartialEq, Eq)]
pub enum LimitedTable {
    /// 4,096 objects, constants among them.
    Objects,
    /// 512 predicates.
    Predicates,
    /// 512 functions. `total-cost` counts only if it is declared.
    Functions,
    /// 512 action schemas.
    Schemas,
    /// 16 parameters of a schema, or arguments of a predicate or a function.
    Arguments,
    /// 256 literals of a schema's precondition and effect together.
    Literals,
    /// 16 increases of a schema.
    Increases,
    /// 1,000,000 items of `:init`.
    Init,
}

/// The kind of a fault.
#[derive(Clone, Copy, Debug, PartialEq, Eq)]
pub enum FaultKind {
    /// F10: a list or a word whose form is not allowed in its position, or something missing.
    Shape,
    /// F11: a word of PDDL that is not supported. The fault's place is that of this word.
    Unsupported,
    /// F12: a predicate, function, object, type or variable that is not declared.
    UnknownName,
    /// F13: a predicate or function with a number of arguments other than that of its parameters.
    Arity,
    /// F14: declared or stated a second time, which is not allowed there.
    TwiceDeclared,
    /// F15: a type that lies on a cycle of supertypes.
    TypeCycle,
    /// F16: a number with a fraction.
    NotWhole,
    /// F17: a cost below 0 or above 2147483647, or a schema whose increases may sum to more.
    CostRange,
    /// F18: the first item past a limit.
    Limit(LimitedTable),
    /// F19: a goal literal that follows its negation.
    GoalBothWays,
}

/// A fault and its place: the byte offset, counted from 0, at which the word or list at fault begins. For something
/// missing it is the place of the list that lacks it.
#[derive(Clone, Copy, Debug, PartialEq, Eq)]
pub struct Fault {
    pub at: usize,
    pub kind: FaultKind,
}

/// Returns the number of a fault as it is reported.
pub fn number(kind: FaultKind) -> u32
    ensures { result ≡ number kind }
{
    match kind {
        FaultKind::Shape => 10,
        FaultKind::Unsupported => 11,
        FaultKind::UnknownName => 12,
        FaultKind::Arity => 13,
        FaultKind::TwiceDeclared => 14,
        FaultKind::TypeCycle => 15,
        FaultKind::NotWhole => 16,
        FaultKind::CostRange => 17,
        FaultKind::Limit(_) => 18,
        FaultKind::GoalBothWays => 19,
    }
}

/// Returns whether the first fault precedes the second: it is at an earlier place, or at the same place with a lower
/// number.
fn precedes(first: Fault, second: Fault) -> bool
    ensures { result ≡ precedes first second }
{
    first.at < second.at || first.at == second.at && number(first.kind) < number(second.kind)
}

/// Records a fault: `first` becomes the earlier of the recorded fault and this one.
pub fn blame(first: &mut Option<Fault>, at: usize, kind: FaultKind)
    ensures { first.new ≡ earlier first.old (record { at = at; kind = kind }) }
{
    let fault = Fault { at, kind };
    match *first {
        Some(known) => {
            if precedes(fault, known) {
                *first = Some(fault);
            }
        }
        None => *first = Some(fault),
    }
}

/// Records a fault in `first` if `is_fault` is set.
#[tactic(auto, unfolding(crate::specs::Faults::first_of))]
pub fn blame_if(is_fault: bool, first: &mut Option<Fault>, at: usize, kind: FaultKind)
    ensures { (fs : List Fault) → first_of first.old (faults_if is_fault (record { at = at; kind = kind }) fs) ≡ first_of first.new fs }
{
    if is_fault {
        blame(first, at, kind);
    }
}

/// Proves that recording faults one by one records the first of them.
pub fn kept_is_first()
    ensures { (fs : List Fault) (e : Fault) → first_of None fs ≡ Some e → IsFirst fs e }
{}

/// Proves that if no fault remains recorded, the list of faults is empty.
#[tactic(auto, using(crate::proofs::Firsts::none_kept))]
pub fn none_kept()
    ensures { (fs : List Fault) → first_of None fs ≡ None → fs ≡ [] }
{}
