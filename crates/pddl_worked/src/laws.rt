//! Worked examples of PDDL texts, as laws.

ghost use Rattle.pddl_syntax.specs.declared.fault.PlanningFile.TheVariants.{Problem};
ghost use Rattle.pddl_syntax.specs.declared.fault.FaultKind.TheVariants.{NotWhole};
ghost use Rattle.pddl_syntax.specs.Faults.{fault};
ghost use Rattle.pddl.specs.declared.fault.PddlFault.TheVariants.{Section};
ghost use Rattle.pddl.specs.Texts.{SpellTask, IsTaskRefusal};
ghost use Rattle.pddl_worked.specs.Noop.{noop_domain, noop_problem, noop_task};
ghost use Rattle.pddl_worked.specs.Road.{road_domain, road_problem, road_task};
ghost use Rattle.pddl_worked.specs.Drive.{drive_domain, drive_problem, drive_problem_with_fraction, drive_task};
ghost use Rattle.pddl_worked.specs.Grip.{grip_domain, grip_problem, grip_task};

/// Proves which task the texts of `examples/noop` spell: capital letters, a comment, an action without parameters, and
/// the cost `5.0`.
pub fn noop_is_spelled()
    ensures { SpellTask noop_domain noop_problem noop_task }
{}

/// Proves which task the texts of `examples/road` spell: a type, predicates with parameters of it, and no metric.
pub fn road_is_spelled()
    ensures { SpellTask road_domain road_problem road_task }
{}

/// Proves which task the texts of `examples/drive` spell: a function with initial values, an increase by its value, and
/// a metric.
pub fn drive_is_spelled()
    ensures { SpellTask drive_domain drive_problem drive_task }
{}

/// Proves which task the texts of `examples/grip` spell: objects without types, three actions, an inequality as a
/// condition, and a goal of two atoms.
pub fn grip_is_spelled()
    ensures { SpellTask grip_domain grip_problem grip_task }
{}

/// Proves that, with `5.5` for the 8 in the problem of `examples/drive`, the first fault is that this number is not
/// whole. Its place is byte 156.
pub fn fraction_is_refused()
    ensures { IsTaskRefusal drive_domain drive_problem_with_fraction (Section Problem (fault NotWhole 156)) }
{}
