//! The closure of the goal's facts under the conditions of operators that change a class.

ghost use Rattle.std.specs.Prelude.{◌≡◌, ℕ, ◌<◌, true, [], ◌∷◌, All, length, map, slice_index, OnOk};
ghost use Rattle.fdr.specs.Tasks.{ranges, IsInRange};
ghost use Rattle.reduction.specs.Facts.{Includes, is_in};
ghost use Rattle.reduction.specs.Waiting.{WaitsForAny};
ghost use Rattle.reduction.specs.Closing.{IsClosing, IsDue, Grows, Asks, KeepsMarks, IsServed, AreVisited, AreOpen, is_marked};
ghost use Rattle.fdr.specs.declared.fact.Fact.{Fact};

use crate::facts::FactSet;
use crate::waiting::Waiting;
use fdr::{Fact, FdrTask};
use std::alloc::AllocError;

/// The facts that are asked for so far.
#[derive(Drop)]
pub(crate) struct Closing {
    pub(crate) asked: FactSet,
    /// For each operator whether it is known to change a class. The conditions of these are asked for.
    pub(crate) changing: Vec<bool>,
    /// For each variable whether the operators that wait for any fact on it are marked.
    pub(crate) visited: Vec<bool>,
    /// The facts whose waiting operators are still to be visited.
    pub(crate) pending: Vec<Fact>,
}

impl Closing {
    /// Asks for a fact.
    fn ask(&mut self, fact: Fact) -> Result<(), AllocError>
        requires { IsInRange (map length self.old.asked) fact }
        ensures asks { OnOk result (Asks self.old.asked self.new.asked self.old.pending.items self.new.pending.items (fact ∷ [])) }
        ensures changing { self.new.changing.items ≡ self.old.changing.items }
        ensures visited { self.new.visited.items ≡ self.old.visited.items }
    {
        if self.asked.contains(fact) {
            return Ok(());
        }
        self.pending.push(fact)?;
        self.asked.insert(fact);
        Ok(())
    }

    /// Asks for each of the facts.
    pub(crate) fn ask_all(&mut self, facts: &[Fact]) -> Result<(), AllocError>
        requires { All (IsInRange (map length self.old.asked)) facts.now }
        ensures asks { OnOk result (Asks self.old.asked self.new.asked self.old.pending.items self.new.pending.items facts.now) }
        ensures changing { self.new.changing.items ≡ self.old.changing.items }
        ensures visited { self.new.visited.items ≡ self.old.visited.items }
    {
        for fact in facts {
            self.ask(*fact)?;
        }
        Ok(())
    }

    /// Marks an operator that changes a class, and asks for its conditions.
    fn mark(&mut self, task: &FdrTask, number: usize) -> Result<(), AllocError>
        requires closing { IsClosing task.now self.old.asked self.old.changing.items }
        requires due { IsDue task.now (is_in self.old.asked) number }
        ensures closing { OnOk result (IsClosing task.now self.new.asked self.new.changing.items) }
        ensures grows { OnOk result (Grows self.old.asked self.new.asked self.old.pending.items self.new.pending.items) }
        ensures marks { OnOk result (KeepsMarks self.old.changing.items self.new.changing.items) }
        ensures marked { OnOk result (is_marked self.new.changing.items number ≡ true) }
        ensures visited { self.new.visited.items ≡ self.old.visited.items }
    {
        if self.changing[number] {
            return Ok(());
        }
        let operator = &task.operators()[number];
        self.ask_all(&operator.precondition)?;
        self.changing[number] = true;
        Ok(())
    }

    /// Marks operators that change a class, and asks for their conditions.
    fn mark_all(&mut self, task: &FdrTask, operators: &[u32]) -> Result<(), AllocError>
        requires closing { IsClosing task.now self.old.asked self.old.changing.items }
        requires due { All (IsDue task.now (is_in self.old.asked)) operators.now }
        ensures closing { OnOk result (IsClosing task.now self.new.asked self.new.changing.items) }
        ensures grows { OnOk result (Grows self.old.asked self.new.asked self.old.pending.items self.new.pending.items) }
        ensures marks { OnOk result (KeepsMarks self.old.changing.items self.new.changing.items) }
        ensures marked { OnOk result (All (λ o. is_marked self.new.changing.items o ≡ true) operators.now) }
        ensures visited { self.new.visited.items ≡ self.old.visited.items }
    {
        for operator in operators {
            self.mark(task, *operator as usize)?;
        }
        Ok(())
    }

    /// Marks the operators that wait for any fact on the variable of a fact that is asked for, once for each variable.
    fn visit_variable(
        &mut self,
        task: &FdrTask,
        waiting: &Waiting<'_>,
        fact: Fact,
    ) -> Result<(), AllocError>
        requires waiting { waiting.now ≡ task.now }
        requires closing { IsClosing task.now self.old.asked self.old.changing.items }
        requires asked { is_in self.old.asked fact ≡ true }
        requires visited { AreVisited task.now self.old.changing.items self.old.visited.items }
        ensures closing { OnOk result (IsClosing task.now self.new.asked self.new.changing.items) }
        ensures grows { OnOk result (Grows self.old.asked self.new.asked self.old.pending.items self.new.pending.items) }
        ensures marks { OnOk result (KeepsMarks self.old.changing.items self.new.changing.items) }
        ensures marked { OnOk result (1 < slice_index (ranges task.now) fact.variable → (o : ℕ) → WaitsForAny task.now fact.variable o →
            is_marked self.new.changing.items o ≡ true) }
        ensures visited { OnOk result (AreVisited task.now self.new.changing.items self.new.visited.items) }
    {
        let variable = fact.variable;
        if task.range(variable) <= 1 {
            return Ok(());
        }
        if self.visited[variable] {
            return Ok(());
        }
        self.mark_all(task, waiting.for_variable(variable))?;
        self.visited[variable] = true;
        Ok(())
    }

    /// Marks the operators that wait for a fact that is asked for.
    fn visit(&mut self, task: &FdrTask, waiting: &Waiting<'_>, fact: Fact) -> Result<(), AllocError>
        requires waiting { waiting.now ≡ task.now }
        requires closing { IsClosing task.now self.old.asked self.old.changing.items }
        requires asked { is_in self.old.asked fact ≡ true }
        requires visited { AreVisited task.now self.old.changing.items self.old.visited.items }
        ensures closing { OnOk result (IsClosing task.now self.new.asked self.new.changing.items) }
        ensures grows { OnOk result (Grows self.old.asked self.new.asked self.old.pending.items self.new.pending.items) }
        ensures marks { OnOk result (KeepsMarks self.old.changing.items self.new.changing.items) }
        ensures served { OnOk result (IsServed task.now self.new.changing.items fact) }
        ensures visited { OnOk result (AreVisited task.now self.new.changing.items self.new.visited.items) }
    {
        self.mark_all(task, waiting.for_fact(fact))?;
        self.visit_variable(task, waiting, fact)?;
        Ok(())
    }

    /// Visits facts until none is left.
    pub(crate) fn close(&mut self, task: &FdrTask, waiting: &Waiting<'_>) -> Result<(), AllocError>
        requires waiting { waiting.now ≡ task.now }
        requires closing { IsClosing task.now self.old.asked self.old.changing.items }
        requires visited { AreVisited task.now self.old.changing.items self.old.visited.items }
        requires pending { AreOpen task.now self.old.asked self.old.changing.items self.old.pending.items }
        ensures closing { OnOk result (IsClosing task.now self.new.asked self.new.changing.items) }
        ensures asked { OnOk result (Includes (is_in self.new.asked) (is_in self.old.asked)) }
        ensures served { OnOk result ((f : Fact) → is_in self.new.asked f ≡ true → IsServed task.now self.new.changing.items f) }
    {
        while let Some(fact) = self.pending.pop() {
            self.visit(task, waiting, fact)?;
        }
        Ok(())
    }
}
