//! The values of an expression on a frame, one at a time, and folded where they are read.
ghost use Rattle.std.specs.Prelude.{◌≡◌, ◌<◌, ◌≤◌, IsTrue, IfOk, get_or, length, map};
ghost use Rattle.std.specs.List.{All};
ghost use Rattle.edm_values.specs.declared.Value.{Value as Value'};
ghost use Rattle.edm_values.specs.Values.{seen_value};
ghost use Rattle.apply_ast.specs.Views.{expr_of};
ghost use Rattle.apply_meaning.specs.Meaning.{values};
ghost use Rattle.apply_meaning.specs.Running.{all_of};
ghost use Rattle.par_stages.specs.Placed.{placed};
ghost use Rattle.row_frames.specs.Frames as spec;

use crate::folded::fold_read;
use crate::picks::Picks;
use crate::readers::{TableReader, readers_of, value_of};
use crate::seen::all_seen;
use crate::tables::Table;
use apply_ast::Expr;
use edm_data::Data;
use edm_values::Seen;
use par_stages::Gate;
use seen_partials::SeenPartial;
use std::alloc::{AllocError, Global};
use std::marker::Model;
use std::thread::Threads;

/// The values of an expression on the instances of a frame, of which none is kept: each is read where it is asked for.
#[derive(Drop)]
pub struct FrameReader<'a> {
    readers: Vec<TableReader<'a>>,
    picks: &'a Picks,
}

impl<'a> Model for FrameReader<'a> {
    ghost use Rattle.std.specs.Prelude.{List, map};
    ghost use Rattle.std.specs.List.{All};
    ghost use Rattle.edm_values.specs.declared.Value.{Value as Value'};
    ghost use Rattle.row_frames.specs.Frames.{read_at, IsReadable};

    ghost Value = { List Value' };

    ghost view = { λ r. map (read_at r.readers.items) r.picks.now };

    ghost invariant = { λ r. All (IsReadable r.readers.items) r.picks.now };
}

/// The values of an expression in the rows that are picked.
pub(crate) fn reader_over<'a>(
    alloc: Global,
    store: &'a Data,
    tables: &'a [Table],
    e: &'a Expr,
    picks: &'a Picks,
) -> Result<FrameReader<'a>, AllocError>
    requires tables { All spec.IsTable tables.now }
    requires within { All (λ x. x.table < length tables.now) picks.now }
    requires of { IsTrue (all_of store.now (spec.all_picked tables.now picks.now)) }
    ensures { IfOk result (λ r. r ≡ values store.now (expr_of e.now) (spec.all_picked tables.now picks.now)) }
{
    let readers = readers_of(alloc, store, tables, e, picks.len())?;
    Ok(FrameReader { readers, picks })
}

impl<'a> FrameReader<'a> {
    /// How many values there are.
    pub fn len(&self) -> usize
        ensures value { result ≡ length self.now }
    {
        self.picks.len()
    }

    /// Value k, counted from 0, which borrows its text.
    pub fn at(&self, k: usize) -> Seen<'a>
        requires there { k < length self.now }
        ensures value { seen_value result ≡ get_or self.now k Value'.Null }
    {
        value_of(self.readers.as_slice(), self.picks.at(k))
    }

    /// All values, which borrow their texts. They may be read in so many parts, each by a thread of its own.
    pub fn seen<R: Threads + Sync>(
        &self,
        rt: &R,
        alloc: Global,
        workers: u32,
    ) -> Result<Vec<Seen<'a>>, AllocError>
        ensures value { IfOk result (λ vs. map (λ v. seen_value v) vs.items ≡ self.now) }
    {
        all_seen(rt, alloc, self.readers.as_slice(), self.picks, workers)
    }

    /// What a partial of the kind of `empty` keeps of all values, each with its place. They are cut into pieces as by `pieces`
    /// (`par_stages`), each of which is read and folded in one go.
    pub fn fold<R: Threads + Sync, P: SeenPartial + Sync, G: Gate>(
        &self,
        rt: &R,
        workers: u32,
        gate: &G,
        empty: P,
    ) -> Result<P, AllocError>
        requires some { 0 < workers }
        requires few { workers ≤ 64 }
        requires kind { All (P.takes (P.kind empty)) self.now }
        ensures stands { IfOk result (λ p. P.stands_for p (placed 0 self.now)) }
    {
        fold_read(
            rt,
            *self.readers.allocator(),
            self.readers.as_slice(),
            self.picks,
            workers,
            gate,
            empty,
        )
    }
}
