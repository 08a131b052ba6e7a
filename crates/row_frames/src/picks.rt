//! Rows of tables that are picked. Of rows of the first table that stand one behind the other no list is kept.
ghost use Rattle.std.specs.Prelude.{◌≡◌, ◌+◌, ◌-◌, ◌≤◌, ◌<◌, ◌++◌, [], IfOk, IsTrue, get_or, length, map, min, nat_lt, take, drop};
ghost use Rattle.std.specs.List.{All, flat_map, list_all};
ghost use Rattle.edm_values.specs.Lists.{at_places, places as all_places};
ghost use Rattle.apply_meaning.specs.Instances.{root_of};
ghost use Rattle.row_frames.specs.Frames as spec;
ghost use Rattle.row_frames.specs.Runs.{part_rows, run_rows};
ghost use Rattle.row_frames.specs.declared.tables.Pick.{Pick as Pick'};

use crate::tables::{Pick, Table, root_in, row_of};
use apply_meaning::{Row, Steps};
use edm_data::EntityRef;
use std::alloc::{AllocError, Global};
use std::marker::Model;
use std::sync::ledger::Ledger;

/// Rows of the first table, one behind the other: from one to before another.
#[derive(Clone, Copy, Debug, Drop)]
pub(crate) struct Run {
    pub(crate) from: u32,
    pub(crate) to: u32,
}

/// Rows of tables that stand in a list, or rows of the first table of which there is none.
#[derive(Debug, Drop)]
pub(crate) enum Kept {
    Run(Run),
    List(Vec<Pick>),
}

/// Rows of tables that are picked, in their order.
#[derive(Debug, Drop)]
pub(crate) struct Picks {
    kept: Kept,
}

/// Some of these rows, one behind the other.
#[derive(Clone, Copy, Debug, Drop)]
pub(crate) enum Part<'a> {
    Run(Run),
    List(&'a [Pick]),
}

impl Model for Picks {
    ghost use Rattle.std.specs.Prelude.{List};
    ghost use Rattle.row_frames.specs.declared.tables.Pick.{Pick as Pick'};
    ghost use Rattle.row_frames.specs.Runs.{kept_rows};

    ghost Value = { List Pick' };

    ghost view = { λ p. kept_rows p.kept };
}

impl Run {
    /// How many rows there are.
    #[inline(always)]
    pub(crate) fn len(self) -> usize
        ensures { result ≡ length (run_rows self) }
    {
        self.to.saturating_sub(self.from) as usize
    }

    /// Row k, counted from 0.
    #[inline(always)]
    pub(crate) fn at(self, k: usize) -> Pick
        requires { k < length (run_rows self) }
        ensures { (d : Pick') → result ≡ get_or (run_rows self) k d }
    {
        let ahead = k as u32;
        let row = self.from + ahead;
        Pick { table: 0, row }
    }

    /// The rows without the first `n`.
    pub(crate) fn later(self, n: usize) -> Run
        ensures { run_rows result ≡ drop n (run_rows self) }
    {
        let most = n.min(self.len());
        let ahead = most as u32;
        let from = self.from + ahead;
        Run { from, to: self.to }
    }

    /// The first `n` rows.
    pub(crate) fn first(self, n: usize) -> Run
        ensures { run_rows result ≡ take n (run_rows self) }
    {
        let most = n.min(self.len());
        let ahead = most as u32;
        let to = self.from + ahead;
        Run {
            from: self.from,
            to,
        }
    }

    /// The rows as a list.
    pub(crate) fn picks(self, alloc: Global) -> Result<Vec<Pick>, AllocError>
        ensures { IfOk result (λ xs. xs.items ≡ run_rows self) }
    {
        let mut picks = Vec::with_capacity(alloc, self.len())?;
        for k in 0..self.len() {
            picks.push(self.at(k))?;
        }
        Ok(picks)
    }
}

/// The pick at place k.
#[inline(always)]
fn pick_at(list: &[Pick], k: usize) -> Pick
    requires { k < length list.now }
    ensures { (d : Pick') → result ≡ get_or list.now k d }
{
    list[k]
}

/// The picks without the first `n`.
fn later_of(list: &[Pick], n: usize) -> &[Pick]
    ensures { result.now ≡ drop n list.now }
{
    let most = n.min(list.len());
    let (_, later) = list.split_at(most);
    later
}

/// The first `n` picks.
fn first_of(list: &[Pick], n: usize) -> &[Pick]
    ensures { result.now ≡ take n list.now }
{
    let most = n.min(list.len());
    let (first, _) = list.split_at(most);
    first
}

impl<'a> Part<'a> {
    /// How many rows there are.
    #[inline(always)]
    pub(crate) fn len(&self) -> usize
        ensures { result ≡ length (part_rows self.now) }
    {
        match self {
            Part::Run(run) => run.len(),
            Part::List(list) => list.len(),
        }
    }

    /// Row k, counted from 0.
    #[inline(always)]
    pub(crate) fn at(&self, k: usize) -> Pick
        requires { k < length (part_rows self.now) }
        ensures { (d : Pick') → result ≡ get_or (part_rows self.now) k d }
    {
        match self {
            Part::Run(run) => run.at(k),
            Part::List(list) => pick_at(list, k),
        }
    }

    /// The rows without the first `n`.
    pub(crate) fn later(&self, n: usize) -> Part<'a>
        ensures { part_rows result ≡ drop n (part_rows self.now) }
    {
        match self {
            Part::Run(run) => Part::Run(run.later(n)),
            Part::List(list) => Part::List(later_of(list, n)),
        }
    }

    /// The first `n` rows.
    pub(crate) fn first(&self, n: usize) -> Part<'a>
        ensures { part_rows result ≡ take n (part_rows self.now) }
    {
        match self {
            Part::Run(run) => Part::Run(run.first(n)),
            Part::List(list) => Part::List(first_of(list, n)),
        }
    }
}

/// The lesser of both.
fn at_most(n: u64, len: usize) -> usize
    ensures { result ≡ min n len }
{
    match usize::try_from(n) {
        Ok(n) => n.min(len),
        Err(_) => len,
    }
}

/// The same picks.
fn copied_picks(alloc: Global, picks: &[Pick]) -> Result<Vec<Pick>, AllocError>
    ensures { IfOk result (λ made. made.items ≡ picks.now) }
{
    let mut made = Vec::with_capacity(alloc, picks.len())?;
    made.extend_from_slice(picks)?;
    Ok(made)
}

impl Picks {
    /// The first `n` rows of the first table.
    pub(crate) fn of_first(n: u32) -> Picks
        ensures { result ≡ map spec.first_pick (all_places n) }
    {
        Picks {
            kept: Kept::Run(Run { from: 0, to: n }),
        }
    }

    /// The rows of a list.
    pub(crate) fn of_list(list: Vec<Pick>) -> Picks
        ensures { result ≡ list.items }
    {
        Picks {
            kept: Kept::List(list),
        }
    }

    /// All of them.
    #[inline(always)]
    pub(crate) fn as_part(&self) -> Part<'_>
        ensures { part_rows result ≡ self.now }
    {
        match &self.kept {
            Kept::Run(run) => Part::Run(*run),
            Kept::List(list) => Part::List(list.as_slice()),
        }
    }

    /// How many there are.
    #[inline(always)]
    pub(crate) fn len(&self) -> usize
        ensures { result ≡ length self.now }
    {
        self.as_part().len()
    }

    /// The one at place k, counted from 0.
    #[inline(always)]
    pub(crate) fn at(&self, k: usize) -> Pick
        requires { k < length self.now }
        ensures { (d : Pick') → result ≡ get_or self.now k d }
    {
        self.as_part().at(k)
    }

    /// The first `n`.
    pub(crate) fn first(self, n: u64) -> Picks
        ensures { result ≡ take n self }
    {
        let Picks { kept } = self;
        match kept {
            Kept::Run(run) => Picks {
                kept: Kept::Run(run.first(at_most(n, run.len()))),
            },
            Kept::List(list) => Picks::of_list(first_picks(n, list)),
        }
    }

    /// Those without the first `n`. No memory is taken.
    pub(crate) fn later(self, n: u64) -> Picks
        ensures { result ≡ drop n self }
    {
        let Picks { kept } = self;
        match kept {
            Kept::Run(run) => Picks {
                kept: Kept::Run(run.later(at_most(n, run.len()))),
            },
            Kept::List(list) => Picks::of_list(later_picks(n, list)),
        }
    }

    /// The same as a list.
    pub(crate) fn into_list(self, alloc: Global) -> Result<Vec<Pick>, AllocError>
        ensures { IfOk result (λ xs. xs.items ≡ self) }
    {
        let Picks { kept } = self;
        match kept {
            Kept::Run(run) => run.picks(alloc),
            Kept::List(list) => Ok(list),
        }
    }

    /// The same, once more.
    pub(crate) fn copy(&self, alloc: Global) -> Result<Picks, AllocError>
        ensures { IfOk result (λ xs. xs ≡ self.now) }
    {
        match self.as_part() {
            Part::Run(run) => Ok(Picks {
                kept: Kept::Run(run),
            }),
            Part::List(list) => Ok(Picks::of_list(copied_picks(alloc, list)?)),
        }
    }
}

/// The rows of the first table at these places.
pub(crate) fn place_picks(alloc: Global, at: &[u32]) -> Result<Vec<Pick>, AllocError>
    ensures { IfOk result (λ xs. xs.items ≡ map spec.first_pick at.now) }
{
    let mut picks = Vec::with_capacity(alloc, at.len())?;
    for row in at {
        picks.push(Pick {
            table: 0,
            row: *row,
        })?;
    }
    Ok(picks)
}

/// The entity at the empty prefix of the row that is picked.
pub(crate) fn picked_root(tables: &[Table], pick: Pick) -> Option<EntityRef>
    requires tables { All spec.IsTable tables.now }
    requires within { pick.table < length tables.now }
    ensures { result ≡ root_of (spec.picked tables.now pick) }
{
    root_in(&tables[pick.table as usize], pick.row)
}

/// The row that is picked: one step.
pub(crate) fn picked_row<L: Ledger>(
    alloc: Global,
    tables: &[Table],
    pick: Pick,
    steps: &mut Steps<L>,
) -> Result<Row, AllocError>
    requires tables { All spec.IsTable tables.now }
    requires within { pick.table < length tables.now }
    ensures row { IfOk result (λ r. r ≡ spec.picked tables.now pick) }
    ensures steps { steps.new ≤ steps.old + 1 }
    ensures grown { steps.old ≤ steps.new }
{
    row_of(alloc, &tables[pick.table as usize], pick.row, steps)
}

/// The rows that are picked: one step each.
pub(crate) fn picked_rows<L: Ledger>(
    alloc: Global,
    tables: &[Table],
    picks: &[Pick],
    steps: &mut Steps<L>,
) -> Result<Vec<Row>, AllocError>
    requires tables { All spec.IsTable tables.now }
    requires within { All (λ x. x.table < length tables.now) picks.now }
    ensures rows { IfOk result (λ made. made.items ≡ spec.all_picked tables.now picks.now) }
    ensures steps { steps.new ≤ steps.old + length picks.now }
    ensures grown { steps.old ≤ steps.new }
{
    let mut made = Vec::with_capacity(alloc, picks.len())?;
    for pick in picks {
        made.push(picked_row(alloc, tables, *pick, steps)?)?;
    }
    Ok(made)
}

/// The first `n` picks.
fn first_picks(n: u64, picks: Vec<Pick>) -> Vec<Pick>
    ensures { result.items ≡ take n picks.items }
{
    let mut picks = picks;
    if let Ok(n) = usize::try_from(n) {
        picks.truncate(n);
    }
    picks
}

/// The picks without the first `n`. No memory is taken.
fn later_picks(n: u64, picks: Vec<Pick>) -> Vec<Pick>
    ensures { result.items ≡ drop n picks.items }
{
    let mut picks = picks;
    let n = match usize::try_from(n) {
        Ok(n) => n.min(picks.len()),
        Err(_) => picks.len(),
    };
    drop(picks.drain(..n));
    picks
}
