//! The commands that work on files alone, with their operands and help.

ghost use Rattle.std.specs.Prelude.{◌≡◌, IfOk};
ghost use Rattle.optplan_words.specs.Commands as spec;
ghost use Rattle.optplan_words.specs.Commands.{IsCommand};

use crate::arguments::{explain, file, with_arg};
use clap::Command;
use std::alloc::{AllocError, Global};

const VALIDATE_ABOUT: &str = "Validates a plan, and prints its cost";

const VALIDATE_LONG: &str = "Validates a plan, and prints its cost or the first step that fails.

Reads a domain and a problem in PDDL 2.1 level 1 with types, negative preconditions and action costs, and a plan with
one (name arguments) a step, as VAL does, and prints one line:

  valid N                     the plan is valid and costs N (status 0)
  no such action S            step S names no action of the task (status 3)
  not applicable S LITERAL    step S does not apply, because LITERAL does not hold (status 3)
  goal open LITERAL           every step applies, and LITERAL of the goal does not hold at the end (status 3)

Steps count from 1. With the metric minimize (total-cost) an action costs the sum of its increases of the total cost,
without it each action costs 1. A text that cannot be read is refused with one line on standard error (status 1).
With --explain lines follow that show the line of the fault, and say what is wrong there.";

const CHECK_SAS_ABOUT: &str =
    "Checks that a certificate proves its bound on the cost of every plan";

const CHECK_SAS_LONG: &str =
    "Checks that a certificate proves its bound on the cost of every plan, and else prints the first clause that fails.

Reads a finite-domain task as Fast Downward's translator writes it (output.sas, version 3, without axioms and conditional
effects) and a certificate for it, and prints one line:

  accepted N                  every plan costs at least N (status 0)
  accepted unsolvable         there is no plan (status 0)
  rejected CLAUSE PLACE       the certificate fails in this clause, C0 or C3 to C8, at this place (status 3)

Variables, columns, tables, states and operators count from 0. A text that cannot be read is refused with one line on
standard error (status 1).
With --explain lines follow that show the line of the fault, and say what is wrong there.";

const CHECK_ABOUT: &str =
    "Checks that a certificate proves its bound on the cost of every valid plan";

const CHECK_LONG: &str =
    "Checks that a certificate proves its bound on the cost of every valid plan, and else prints the first clause that fails.

Reads a domain and a problem in PDDL 2.1 level 1 with types, negative preconditions and action costs, and a certificate
for them, and prints one line:

  accepted N                  every valid plan costs at least N (status 0)
  accepted unsolvable         there is no valid plan (status 0)
  rejected CLAUSE PLACE       the certificate fails in this clause, C0 to C8, at this place (status 3)

Variables, columns, tables, states and operators count from 0. A text that cannot be read is refused with one line on
standard error (status 1).
With --explain lines follow that show the line of the fault, and say what is wrong there.";

const OPTIMAL_ABOUT: &str =
    "Validates a plan, and checks that a certificate proves that no valid plan is cheaper";

const OPTIMAL_LONG: &str =
    "Validates a plan, and checks that a certificate proves that no valid plan is cheaper, whoever wrote the two.

Reads a domain and a problem in PDDL 2.1 level 1 with types, negative preconditions and action costs, a plan with one
(name arguments) a step, and a certificate for the domain and the problem, and prints one line:

  optimal N                   the plan is valid and costs N, and every valid plan costs at least N (status 0)
  valid N, at least B         the plan is valid and costs N, and every valid plan costs at least B, which is less (status 3)
  valid N, rejected CLAUSE PLACE
                              the plan is valid and costs N, and the certificate fails in this clause, C0 to C8, at this
                              place (status 3)

A plan that is not valid has the line that validate prints (status 3), and the certificate is not judged. A plan file that
consists of the line unsolvable claims that there is no valid plan. Then the line is one of these:

  unsolvable                  there is no valid plan (status 4)
  at least B                  every valid plan costs at least B (status 3)
  rejected CLAUSE PLACE       the certificate fails in this clause, C0 to C8, at this place (status 3)

The plan may be as other tools write it: after a first line, limit N, with time stamps that ascend, 0.0: (go a b), and
durations, [1.0].

A text that cannot be read is refused with one line on standard error (status 1).
With --explain lines follow that show the line of the fault, and say what is wrong there.";

const TRANSLATE_ABOUT: &str =
    "Translates a planning task to a finite-domain task with the same plans";

const TRANSLATE_LONG: &str =
    "Translates a planning task to a finite-domain task with the same plans and the same costs.

Reads a domain and a problem in PDDL 2.1 level 1 with types, negative preconditions and action costs, and prints the
task as output.sas, version 3, as Fast Downward's search reads it (status 0). A text that cannot be read is refused with
one line on standard error (status 1).
With --explain lines follow that show the line of the fault, and say what is wrong there.";

const MIGRATE_CERT_ABOUT: &str = "Converts a certificate of version 1 to version 2";

const MIGRATE_CERT_LONG: &str =
    "Converts a certificate of version 1 to version 2, in which a table may be that of a domain abstraction.

Reads a certificate, and prints the same certificate, one of version 1 as version 2 (status 0): only the first line differs,
and the verdict of check and check-sas is the same. Certificates of versions 2 and 3 stay as they are. A text that cannot be
read is refused with one line on standard error (status 1).
With --explain lines follow that show the line of the fault, and say what is wrong there.";

/// Returns the command `validate`.
pub(crate) fn validate_command<'a>(alloc: Global) -> Result<Command<'a>, AllocError>
    ensures { IfOk result (IsCommand spec.validate) }
{
    let command = Command::new(alloc, "validate")
        .about(VALIDATE_ABOUT)
        .long_about(VALIDATE_LONG);
    let command = with_arg(command, file(alloc, "DOMAIN", "The domain's file"))?;
    let command = with_arg(command, file(alloc, "PROBLEM", "The problem's file"))?;
    let command = with_arg(command, file(alloc, "PLAN", "The plan's file"))?;
    with_arg(command, explain(alloc))
}

/// Returns the command `check`.
pub(crate) fn check_command<'a>(alloc: Global) -> Result<Command<'a>, AllocError>
    ensures { IfOk result (IsCommand spec.check) }
{
    let command = Command::new(alloc, "check")
        .about(CHECK_ABOUT)
        .long_about(CHECK_LONG);
    let command = with_arg(command, file(alloc, "DOMAIN", "The domain's file"))?;
    let command = with_arg(command, file(alloc, "PROBLEM", "The problem's file"))?;
    let command = with_arg(command, file(alloc, "CERT", "The certificate's file"))?;
    with_arg(command, explain(alloc))
}

/// Returns the command `check-sas`.
pub(crate) fn check_sas_command<'a>(alloc: Global) -> Result<Command<'a>, AllocError>
    ensures { IfOk result (IsCommand spec.check_sas) }
{
    let command = Command::new(alloc, "check-sas")
        .about(CHECK_SAS_ABOUT)
        .long_about(CHECK_SAS_LONG);
    let command = with_arg(command, file(alloc, "SAS", "The task's file"))?;
    let command = with_arg(command, file(alloc, "CERT", "The certificate's file"))?;
    with_arg(command, explain(alloc))
}

/// Returns the command `optimal`.
pub(crate) fn optimal_command<'a>(alloc: Global) -> Result<Command<'a>, AllocError>
    ensures { IfOk result (IsCommand spec.optimal) }
{
    let command = Command::new(alloc, "optimal")
        .about(OPTIMAL_ABOUT)
        .long_about(OPTIMAL_LONG);
    let command = with_arg(command, file(alloc, "DOMAIN", "The domain's file"))?;
    let command = with_arg(command, file(alloc, "PROBLEM", "The problem's file"))?;
    let command = with_arg(command, file(alloc, "PLAN", "The plan's file"))?;
    let command = with_arg(command, file(alloc, "CERT", "The certificate's file"))?;
    with_arg(command, explain(alloc))
}

/// Returns the command `translate`.
pub(crate) fn translate_command<'a>(alloc: Global) -> Result<Command<'a>, AllocError>
    ensures { IfOk result (IsCommand spec.translate) }
{
    let command = Command::new(alloc, "translate")
        .about(TRANSLATE_ABOUT)
        .long_about(TRANSLATE_LONG);
    let command = with_arg(command, file(alloc, "DOMAIN", "The domain's file"))?;
    let command = with_arg(command, file(alloc, "PROBLEM", "The problem's file"))?;
    with_arg(command, explain(alloc))
}

/// Returns the command `migrate-cert`.
pub(crate) fn migrate_cert_command<'a>(alloc: Global) -> Result<Command<'a>, AllocError>
    ensures { IfOk result (IsCommand spec.migrate_cert) }
{
    let command = Command::new(alloc, "migrate-cert")
        .about(MIGRATE_CERT_ABOUT)
        .long_about(MIGRATE_CERT_LONG);
    let command = with_arg(command, file(alloc, "CERT", "The certificate's file"))?;
    with_arg(command, explain(alloc))
}
