//! Options of the solver.

ghost use Rattle.std.specs.Prelude.{◌≡◌, ◌≤◌, ◌^◌, ◌∷◌, [], Some, None, true, false};

use owner_space::Ties;
use std::marker::Model;

/// The greatest number of owners.
pub const MAX_WORKERS: usize = 64;

/// The greatest number of abstract states of a table, 2^24.
pub const MAX_TABLE: usize = 16_777_216;

/// The greatest capacity of a link, in messages.
pub const MAX_RING: usize = 65_536;

/// The number of stages of a search in stages that have an end. One more stage, which has none, may follow them.
pub const STAGES: usize = 3;

/// The numbers of states that the workers of a search in stages store together when its stages end.
pub const STAGE_ENDS: [usize; STAGES] = [60_000, 700_000, 15_000_000];

/// Which searches a multi-threaded solver runs, and with which tables.
#[derive(Clone, Copy, Debug, PartialEq, Eq)]
pub enum Tables {
    /// One search, with tables of at most as many abstract states as the options allow.
    Goal,
    /// Searches in stages, each from nothing: first with small tables and until a number of states is stored, then with
    /// larger tables. The last stage has no end.
    Staged,
}

/// How a task is solved: the number of owners (1 to 64), the greatest number of abstract states of a table (1 to 2^24),
/// the limit on the nodes that each owner expands in each search, if there is one, the capacity of a link between two
/// workers in messages (1 to 65,536), the greatest number of steps of a simulation, the order of expansion among nodes
/// of the same f-value, whether a multi-threaded solver searches in stages, the numbers of states at which these end,
/// whether a certificate is made, and whether a multi-threaded solver searches what a reduction leaves of the task.
#[derive(Debug, Drop)]
pub struct Options {
    workers: usize,
    table: usize,
    limit: Option<u64>,
    ring: usize,
    steps: u64,
    ties: Ties,
    tables: Tables,
    stage_ends: [usize; STAGES],
    certificate: bool,
    reduction: bool,
}

impl Model for Options {
    ghost use Rattle.std.specs.Prelude.{◌≤◌, ◌^◌};
    ghost use Rattle.optplan_options.specs.Choices.{Choices};

    ghost Value = { Choices };

    ghost view = { λ o. record { workers = o.workers; table = o.table; limit = o.limit; ring = o.ring; steps = o.steps; ties = o.ties; tables = o.tables; stage_ends = o.stage_ends; certificate = o.certificate; reduction = o.reduction } };

    ghost invariant = { λ o. (1 ≤ o.workers) × (o.workers ≤ 64) × (1 ≤ o.table) × (o.table ≤ 2 ^ 24) × (1 ≤ o.ring) × (o.ring ≤ 2 ^ 16) };
}

impl Options {
    /// Returns the defaults: 4 owners, tables of at most 100,000 abstract states, no limit on expansions, links with
    /// room for 64 messages, 1,000,000 steps of a simulation, the order `Shallow`, one search, stages that end at
    /// 60,000, 700,000 and 15,000,000 states, a certificate, and no reduction.
    pub fn new() -> Options
        ensures { result ≡ record {
          workers = 4;
          table = 100000;
          limit = None;
          ring = 64;
          steps = 1000000;
          ties = Ties.Shallow;
          tables = Tables.Goal;
          stage_ends = 60000 ∷ 700000 ∷ 15000000 ∷ [];
          certificate = true;
          reduction = false;
        } }
    {
        Options {
            workers: 4,
            table: 100_000,
            limit: None,
            ring: 64,
            steps: 1_000_000,
            ties: Ties::Shallow,
            tables: Tables::Goal,
            stage_ends: STAGE_ENDS,
            certificate: true,
            reduction: false,
        }
    }

    /// Returns these options with `workers` owners, 1 to 64.
    pub fn with_workers(self, workers: usize) -> Options
        requires some { 1 ≤ workers }
        requires few { workers ≤ 64 }
        ensures { result ≡ record self { workers = workers } }
    {
        Options { workers, ..self }
    }

    /// Returns these options with tables of at most `table` abstract states, 1 to 2^24.
    pub fn with_table(self, table: usize) -> Options
        requires some { 1 ≤ table }
        requires few { table ≤ 2 ^ 24 }
        ensures { result ≡ record self { table = table } }
    {
        Options { table, ..self }
    }

    /// Returns these options with this limit on the number of nodes that each owner expands.
    pub fn with_limit(self, limit: u64) -> Options
        ensures { result ≡ record self { limit = Some limit } }
    {
        Options {
            limit: Some(limit),
            ..self
        }
    }

    /// Returns these options with links that have room for `ring` messages, 1 to 65,536.
    pub fn with_ring(self, ring: usize) -> Options
        requires some { 1 ≤ ring }
        requires few { ring ≤ 2 ^ 16 }
        ensures { result ≡ record self { ring = ring } }
    {
        Options { ring, ..self }
    }

    /// Returns these options with at most `steps` steps of a simulation.
    pub fn with_steps(self, steps: u64) -> Options
        ensures { result ≡ record self { steps = steps } }
    {
        Options { steps, ..self }
    }

    /// Returns these options with this order of expansion among nodes of the same f-value.
    pub fn with_ties(self, ties: Ties) -> Options
        ensures { result ≡ record self { ties = ties } }
    {
        Options { ties, ..self }
    }

    /// Returns these options with one search, or with searches in stages.
    pub fn with_tables(self, tables: Tables) -> Options
        ensures { result ≡ record self { tables = tables } }
    {
        Options { tables, ..self }
    }

    /// Returns these options with stages that end once the workers store together as many states as these. A stage that
    /// ends at 0 states ends at once; so a given stage must answer if those before it end at 0, and it at `usize::MAX`.
    pub fn with_stage_ends(self, stage_ends: [usize; STAGES]) -> Options
        ensures { result ≡ record self { stage_ends = stage_ends } }
    {
        Options { stage_ends, ..self }
    }

    /// Returns these options with a certificate, or without one. Making it takes time and memory in proportion to the
    /// states that were expanded.
    pub fn with_certificate(self, certificate: bool) -> Options
        ensures { result ≡ record self { certificate = certificate } }
    {
        Options {
            certificate,
            ..self
        }
    }

    /// Returns these options with a reduction of the task before a multi-threaded search, or without one: what no goal
    /// needs is left out.
    pub fn with_reduction(self, reduction: bool) -> Options
        ensures { result ≡ record self { reduction = reduction } }
    {
        Options { reduction, ..self }
    }

    /// Returns the number of owners.
    pub fn workers(&self) -> usize
        ensures value { result ≡ self.now.workers }
        ensures some { 1 ≤ result }
        ensures few { result ≤ 64 }
    {
        self.workers
    }

    /// Returns the greatest number of abstract states of a table.
    pub fn table(&self) -> usize
        ensures value { result ≡ self.now.table }
        ensures some { 1 ≤ result }
        ensures few { result ≤ 2 ^ 24 }
    {
        self.table
    }

    /// Returns the greatest number of nodes that each owner may expand, if there is a limit.
    pub fn limit(&self) -> Option<u64>
        ensures { result ≡ self.now.limit }
    {
        self.limit
    }

    /// Returns the capacity of a link between two workers, in messages.
    pub fn ring(&self) -> usize
        ensures value { result ≡ self.now.ring }
        ensures some { 1 ≤ result }
        ensures few { result ≤ 2 ^ 16 }
    {
        self.ring
    }

    /// Returns the greatest number of steps of a simulation.
    pub fn steps(&self) -> u64
        ensures { result ≡ self.now.steps }
    {
        self.steps
    }

    /// Returns the order of expansion among nodes of the same f-value.
    pub fn ties(&self) -> Ties
        ensures { result ≡ self.now.ties }
    {
        self.ties
    }

    /// Returns whether a multi-threaded solver runs one search, or searches in stages.
    pub fn tables(&self) -> Tables
        ensures { result ≡ self.now.tables }
    {
        self.tables
    }

    /// Returns the numbers of states at which the stages end.
    pub fn stage_ends(&self) -> [usize; STAGES]
        ensures { result ≡ self.now.stage_ends }
    {
        self.stage_ends
    }

    /// Returns whether a certificate is made.
    pub fn certificate(&self) -> bool
        ensures { result ≡ self.now.certificate }
    {
        self.certificate
    }

    /// Returns whether a multi-threaded solver searches what a reduction leaves of the task.
    pub fn reduction(&self) -> bool
        ensures { result ≡ self.now.reduction }
    {
        self.reduction
    }
}
