//! The sections of the predicates and of the functions.

ghost use Rattle.std.specs.Prelude.{◌≡◌, ◌<◌, ◌≤◌, ◌+◌, ℕ, Bool, true, false, List, length, IfOk, OnOk, codes};
ghost use Rattle.sexp.specs.Forms.{Forms, views, before, group, word};
ghost use Rattle.pddl_names.specs.Names.{is_there, same_text};
ghost use Rattle.pddl_syntax.specs.declared.fault.Fault.{Fault};
ghost use Rattle.pddl_syntax.specs.Faults.{first_of};
ghost use Rattle.pddl_syntax.specs.Words.{word_kind};
ghost use Rattle.pddl_syntax.specs.Heads.{no_heads, Heads as DeclaredHeads};
ghost use Rattle.pddl_syntax.specs.Typed.{declared};
ghost use Rattle.pddl_syntax.specs.Parameters.{parameters_faults};
ghost use Rattle.pddl_domain.specs.DeclaredHeads as spec;
ghost use Rattle.pddl_domain.specs.DeclaredHeads.{with_item, with_list, past_limit, item_faults, list_faults, count_after, predicate_heads, predicates_faults, function_heads, functions_faults, faults_behind, heads_from, faults_from};

use pddl_syntax::{
    Fault, FaultKind, Heads, LimitedTable, Parameters, Types, WordKind, blame, blame_if,
    blame_type_list, parameters_list, word_kind,
};
use sexp::Tree;
use std::alloc::{AllocError, Global};

/// The greatest number of predicates, and of functions.
const MAX_HEADS: usize = 512;

/// An item `(HEAD PARAMETERS)` whose head is a word, with the byte offsets of the item and of its head.
#[derive(Clone, Copy)]
struct Item<'a> {
    at: usize,
    head_at: usize,
    head: &'a str,
    parameters: &'a [Tree],
}

/// The predicates or functions read so far, and the number of items counted.
#[derive(Drop)]
struct Declarations {
    alloc: Global,
    heads: Heads,
    count: usize,
}

impl Declarations {
    fn new(alloc: Global) -> Declarations
        ensures heads { result.heads ≡ no_heads }
        ensures count { result.count ≡ 0 }
    {
        Declarations {
            alloc,
            heads: Heads::new(alloc),
            count: 0,
        }
    }

    /// Counts an item, and records a fault if it is past the limit.
    fn count_item(&mut self, table: LimitedTable, at: usize, first: &mut Option<Fault>)
        requires { self.old.count < usize.MAX }
        ensures heads { self.new.heads ≡ self.old.heads }
        ensures count { self.new.count ≡ self.old.count + 1 }
        ensures faults { (rest : List Fault) → first_of first.old (past_limit table self.old.count at rest) ≡ first_of first.new rest }
    {
        blame_if(self.count >= MAX_HEADS, first, at, FaultKind::Limit(table));
        self.count += 1;
    }

    /// Counts an item, and records a fault if its head is not a name or is declared already.
    #[tactic(auto, unfolding(pddl_syntax::specs::Faults::first_of))]
    fn count_head(&mut self, table: LimitedTable, item: Item, first: &mut Option<Fault>)
        requires { self.old.count < usize.MAX }
        ensures heads { self.new.heads ≡ self.old.heads }
        ensures count { self.new.count ≡ self.old.count + 1 }
        ensures faults { (known : List ℕ → Bool) (parameters : Forms) →
            first_of first.old (item_faults known table self.old.heads self.old.count item.entry.at
            item.entry.head_at (word_kind item.entry.head.now) item.entry.head.now parameters)
            ≡ first_of first.new (parameters_faults known item.entry.at parameters) }
    {
        self.count_item(table, item.at, first);
        if word_kind(item.head) == WordKind::Name {
            blame_if(
                self.heads.names().contains(item.head),
                first,
                item.head_at,
                FaultKind::TwiceDeclared,
            );
        } else {
            blame(first, item.head_at, FaultKind::Shape);
        }
    }

    /// Reads an item and records its faults.
    #[tactic(auto, unfolding(pddl_syntax::specs::Faults::first_of))]
    fn read_item(
        &mut self,
        types: &Types,
        table: LimitedTable,
        item: Item,
        first: &mut Option<Fault>,
    ) -> Result<(), AllocError>
        requires { self.old.count < usize.MAX }
        ensures heads { OnOk result (self.new.heads
            ≡ with_item (word_kind item.entry.head.now) self.old.heads item.entry.head.now (views item.entry.parameters.now)) }
        ensures count { OnOk result (self.new.count ≡ self.old.count + 1) }
        ensures faults { OnOk result (first.new ≡ first_of first.old (item_faults (is_there types.now.names) table self.old.heads self.old.count
            item.entry.at item.entry.head_at (word_kind item.entry.head.now) item.entry.head.now (views item.entry.parameters.now))) }
    {
        self.count_head(table, item, first);
        let arity = arity_of(self.alloc, item.parameters, types, item.at, first)?;
        if word_kind(item.head) != WordKind::Name {
            return Ok(());
        }
        self.heads.add(self.alloc, item.head, arity)
    }

    /// Reads the list at `at`, whose items are `items`, and records its faults.
    #[tactic(auto, using(sexp::proofs::Walking::walking, pddl_syntax::proofs::Trees::noting), unfolding(pddl_syntax::specs::Faults::first_of))]
    fn read_list(
        &mut self,
        types: &Types,
        table: LimitedTable,
        items: &[Tree],
        at: usize,
        first: &mut Option<Fault>,
    ) -> Result<(), AllocError>
        requires { self.old.count < usize.MAX }
        ensures heads { OnOk result (self.new.heads ≡ with_list self.old.heads (views items.now)) }
        ensures count { OnOk result (self.new.count ≡ count_after self.old.count (views items.now)) }
        ensures faults { OnOk result (first.new
            ≡ first_of first.old (list_faults (is_there types.now.names) table self.old.heads self.old.count at (views items.now))) }
    {
        match items {
            [] => blame(first, at, FaultKind::Shape),
            [head, parameters @ ..] => match head {
                Tree::Word { text, span } => {
                    let item = Item {
                        at,
                        head_at: span.start,
                        head: text.as_str(),
                        parameters,
                    };
                    self.read_item(types, table, item, first)?;
                }
                Tree::List { items: _, span } => {
                    self.count_item(table, at, first);
                    blame(first, span.start, FaultKind::Shape);
                }
            },
        }
        Ok(())
    }
}

fn variable_count(parameters: &Parameters) -> usize
    ensures { result ≡ length parameters.now.types.items }
{
    parameters.types.len()
}

/// Returns the number of variables that the list at `home` declares, and records their faults in `first`.
fn arity_of(
    alloc: Global,
    parameters: &[Tree],
    types: &Types,
    home: usize,
    first: &mut Option<Fault>,
) -> Result<usize, AllocError>
    ensures arity { IfOk result (λ n. n ≡ length (declared true (views parameters.now))) }
    ensures faults { OnOk result (first.new ≡ first_of first.old (parameters_faults (is_there types.now.names) home (views parameters.now))) }
{
    let parameters = parameters_list(alloc, parameters, types, home, first)?;
    Ok(variable_count(&parameters))
}

// ---- predicates

/// Returns whether a list with these items has the head `=`.
#[tactic(auto, using(sexp::proofs::Walking::walking))]
fn has_equals(items: &[Tree]) -> bool
    ensures { result ≡ spec.has_equals (views items.now) }
{
    match items {
        [] => false,
        [head, ..] => match head {
            Tree::Word { text, .. } => text.as_str() == "=",
            Tree::List { .. } => false,
        },
    }
}

/// Reads the next item of the predicates.
fn read_predicates_tree(
    types: &Types,
    predicates: &mut Declarations,
    tree: &Tree,
    first: &mut Option<Fault>,
) -> Result<(), AllocError>
    requires { predicates.old.count < usize.MAX }
    ensures count { OnOk result (predicates.new.count ≤ predicates.old.count + 1) }
    ensures heads { OnOk result ((rest : Forms) → predicate_heads predicates.old.heads (before tree.now rest) ≡ predicate_heads predicates.new.heads rest) }
    ensures faults { OnOk result ((rest : Forms) →
        first_of first.old (predicates_faults (is_there types.now.names) predicates.old.heads predicates.old.count (before tree.now rest))
        ≡ first_of first.new (predicates_faults (is_there types.now.names) predicates.new.heads predicates.new.count rest)) }
{
    match tree {
        Tree::Word { text: _, span } => {
            blame(first, span.start, FaultKind::Shape);
            Ok(())
        }
        Tree::List { items, span } => {
            let items = items.as_slice();
            if has_equals(items) {
                return Ok(());
            }
            predicates.read_list(types, LimitedTable::Predicates, items, span.start, first)
        }
    }
}

/// Reads the items of the predicates.
#[tactic(auto, unfolding(pddl_syntax::specs::Faults::first_of))]
fn read_predicates(
    types: &Types,
    predicates: &mut Declarations,
    items: &[Tree],
    first: &mut Option<Fault>,
) -> Result<(), AllocError>
    requires { predicates.old.count ≡ 0 }
    ensures heads { OnOk result (predicates.new.heads ≡ predicate_heads predicates.old.heads (views items.now)) }
    ensures faults { OnOk result (first.new
        ≡ first_of first.old (predicates_faults (is_there types.now.names) predicates.old.heads predicates.old.count (views items.now))) }
{
    for tree in items {
        read_predicates_tree(types, predicates, tree, first)?;
    }
    Ok(())
}

/// Reads the section of the predicates, whose items without its head are `items`, and records its faults in `first`.
///
/// An item named `=` is skipped, because `=` is predefined. A predicate that is declared twice has the number of
/// parameters of its first declaration (Fox and Long 2003; McDermott and others 1998).
#[tactic(auto, unfolding(pddl_syntax::specs::Faults::first_of))]
pub fn predicates_section(
    alloc: Global,
    items: &[Tree],
    types: &Types,
    first: &mut Option<Fault>,
) -> Result<Heads, AllocError>
    ensures meaning { IfOk result (λ heads. heads ≡ predicate_heads no_heads (views items.now)) }
    ensures faults { OnOk result (first.new ≡ first_of first.old (predicates_faults (is_there types.now.names) no_heads 0 (views items.now))) }
{
    let mut predicates = Declarations::new(alloc);
    read_predicates(types, &mut predicates, items, first)?;
    Ok(predicates.heads)
}

// ---- functions

/// The state of reading the section of the functions: what was read so far.
#[derive(Drop)]
struct Functions {
    declarations: Declarations,
    /// Whether no item was read since the last type.
    is_empty: bool,
    wants_number: bool,
}

fn is_number(text: &str) -> bool
    ensures { result ≡ same_text text.now (codes "number") }
{
    text == "number"
}

/// Returns whether a run that is empty so far or not (`empty`) is empty after a list with these items.
#[tactic(auto, using(sexp::proofs::Walking::walking, crate::proofs::HeadItems::not_empty_after))]
fn is_empty_after(empty: bool, items: &[Tree]) -> bool
    ensures { result ≡ spec.empty_after empty (views items.now) }
{
    match items {
        [] => empty,
        [_head, ..] => false,
    }
}

/// Records the fault of a tree in the position of `number`.
fn blame_number(tree: &Tree, first: &mut Option<Fault>)
    ensures { (known : List ℕ → Bool) (home : ℕ) (heads : DeclaredHeads) (count : ℕ) (rest : Forms) →
        first_of first.old (faults_behind known home heads count (before tree.now rest))
        ≡ first_of first.new (functions_faults known home true heads count rest) }
{
    match tree {
        Tree::Word { text, span } => blame_if(
            !is_number(text.as_str()),
            first,
            span.start,
            FaultKind::Unsupported,
        ),
        Tree::List { items, span } => blame_type_list(items, span.start, first),
    }
}

impl Functions {
    fn new(alloc: Global) -> Functions
        ensures heads { result.declarations.heads ≡ no_heads }
        ensures count { result.declarations.count ≡ 0 }
        ensures is_empty { result.is_empty ≡ true }
        ensures wants { result.wants_number ≡ false }
    {
        Functions {
            declarations: Declarations::new(alloc),
            is_empty: true,
            wants_number: false,
        }
    }

    /// Reads a word in the position of an item.
    #[tactic(auto, unfolding(pddl_syntax::specs::Faults::first_of))]
    fn read_word(&mut self, text: &str, at: usize, first: &mut Option<Fault>)
        requires { self.old.wants_number ≡ false }
        ensures declarations { self.new.declarations ≡ self.old.declarations }
        ensures heads { (end : ℕ) (rest : Forms) → function_heads self.old.declarations.heads (word at end text.now rest)
            ≡ heads_from self.new.wants_number self.old.declarations.heads rest }
        ensures faults { (known : List ℕ → Bool) (home end : ℕ) (heads : DeclaredHeads) (count : ℕ) (rest : Forms) →
            first_of first.old (functions_faults known home self.old.is_empty heads count (word at end text.now rest))
            ≡ first_of first.new (faults_from self.new.wants_number known home self.new.is_empty heads count rest) }
    {
        if word_kind(text) == WordKind::Dash {
            blame_if(self.is_empty, first, at, FaultKind::Shape);
            self.wants_number = true;
        } else {
            blame(first, at, FaultKind::Shape);
        }
    }

    /// Reads the next tree of the section.
    fn read(
        &mut self,
        types: &Types,
        tree: &Tree,
        first: &mut Option<Fault>,
    ) -> Result<(), AllocError>
        requires { self.old.declarations.count < usize.MAX }
        ensures count { OnOk result (self.new.declarations.count ≤ self.old.declarations.count + 1) }
        ensures heads { OnOk result ((rest : Forms) → heads_from self.old.wants_number self.old.declarations.heads (before tree.now rest)
            ≡ heads_from self.new.wants_number self.new.declarations.heads rest) }
        ensures faults { OnOk result ((home : ℕ) (rest : Forms) →
            first_of first.old (faults_from self.old.wants_number (is_there types.now.names) home self.old.is_empty
            self.old.declarations.heads self.old.declarations.count (before tree.now rest))
            ≡ first_of first.new (faults_from self.new.wants_number (is_there types.now.names) home
            self.new.is_empty self.new.declarations.heads self.new.declarations.count rest)) }
    {
        if self.wants_number {
            blame_number(tree, first);
            self.wants_number = false;
            self.is_empty = true;
            return Ok(());
        }
        match tree {
            Tree::Word { text, span } => {
                self.read_word(text.as_str(), span.start, first);
                Ok(())
            }
            Tree::List { items, span } => {
                let items = items.as_slice();
                self.is_empty = is_empty_after(self.is_empty, items);
                self.declarations
                    .read_list(types, LimitedTable::Functions, items, span.start, first)
            }
        }
    }

    /// Reads all trees of the section at `home`.
    #[tactic(auto, unfolding(pddl_syntax::specs::Faults::first_of))]
    fn read_all(
        &mut self,
        types: &Types,
        items: &[Tree],
        home: usize,
        first: &mut Option<Fault>,
    ) -> Result<(), AllocError>
        requires { self.old.declarations.count ≡ 0 }
        ensures heads { OnOk result (self.new.declarations.heads ≡ heads_from self.old.wants_number self.old.declarations.heads (views items.now)) }
        ensures faults { OnOk result (first.new ≡ first_of first.old
            (faults_from self.old.wants_number (is_there types.now.names) home self.old.is_empty
            self.old.declarations.heads self.old.declarations.count (views items.now))) }
    {
        for tree in items {
            self.read(types, tree, first)?;
        }
        blame_if(self.wants_number, first, home, FaultKind::Shape);
        Ok(())
    }
}

/// Reads the section of the functions at `home`, whose items without its head are `items`, and records its faults in
/// `first`.
///
/// `- number` may follow items and adds nothing to their meaning (Fox and Long 2003). A function that is declared twice
/// has the number of parameters of its first declaration.
#[tactic(auto, unfolding(pddl_syntax::specs::Faults::first_of))]
pub fn functions_section(
    alloc: Global,
    items: &[Tree],
    types: &Types,
    home: usize,
    first: &mut Option<Fault>,
) -> Result<Heads, AllocError>
    ensures meaning { IfOk result (λ heads. heads ≡ function_heads no_heads (views items.now)) }
    ensures faults { OnOk result (first.new ≡ first_of first.old (functions_faults (is_there types.now.names) home true no_heads 0 (views items.now))) }
{
    let mut functions = Functions::new(alloc);
    functions.read_all(types, items, home, first)?;
    Ok(functions.declarations.heads)
}
