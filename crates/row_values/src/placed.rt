//! Instances that are told by their places in a list, and the values of expressions and keys on them. No row is copied or made.
ghost use Rattle.std.specs.Prelude.{◌≡◌, ◌<◌, ◌≤◌, IfOk, IfSome, IsTrue, length, map, nat_lt};
ghost use Rattle.std.specs.List.{list_all};
ghost use Rattle.edm_values.specs.Lists.{at_places};
ghost use Rattle.apply_ast.specs.Views.{expr_of};
ghost use Rattle.aggregate_ops.specs.Partials.{AreFoldable};
ghost use Rattle.apply_meaning.specs.Aggregates.{aggregate};
ghost use Rattle.apply_meaning.specs.Meaning as spec;
ghost use Rattle.apply_meaning.specs.Meaning.{values};
ghost use Rattle.apply_meaning.specs.Running.{all_of};
ghost use Rattle.row_frames.specs.Keys.{key_columns, seen_columns};

use crate::lists::RowList;
use aggregate_ops::aggregate_values;
use apply_ast::{Expr, Path};
use edm_data::Data;
use edm_values::{Method, Seen, Value};
use par_stages::Gate;
use std::alloc::{AllocError, Global};
use std::marker::Model;
use std::thread::Threads;

/// Instances of a list: all of them, or those at some places, in the order of the places.
#[derive(Drop)]
pub struct PlacedRows<'a> {
    list: &'a RowList<'a>,
    places: Option<&'a [usize]>,
}

impl<'a> Model for PlacedRows<'a> {
    ghost use Rattle.std.specs.Prelude.{List, option_map};
    ghost use Rattle.apply_meaning.specs.Instances.{Instance};
    ghost use Rattle.row_values.specs.Placed.{are_within, placed_in};

    ghost Value = { List Instance };

    ghost view = { λ r. placed_in r.list.now (option_map (λ p. p.now) r.places) };

    ghost invariant = { λ r. are_within r.list.now (option_map (λ p. p.now) r.places) };
}

impl<'a> PlacedRows<'a> {
    /// All instances of a list.
    pub fn all(list: &'a RowList<'a>) -> PlacedRows<'a>
        ensures value { result ≡ list.now }
    {
        PlacedRows { list, places: None }
    }

    /// The instances at these places.
    pub fn at(list: &'a RowList<'a>, places: &'a [usize]) -> PlacedRows<'a>
        requires { IsTrue (list_all (λ k. nat_lt k (length list.now)) places.now) }
        ensures value { result ≡ at_places list.now places.now }
    {
        PlacedRows {
            list,
            places: Some(places),
        }
    }

    /// How many instances there are.
    pub fn len(&self) -> usize
        ensures value { result ≡ length self.now }
    {
        let list = self.list;
        match self.places {
            None => list.len(),
            Some(places) => places.len(),
        }
    }

    /// The list, where these are all of its instances.
    pub fn whole(&self) -> Option<&'a RowList<'a>>
        ensures value { IfSome result (λ list. list.now ≡ self.now) }
    {
        match self.places {
            None => Some(self.list),
            Some(_) => None,
        }
    }

    /// The values of an expression on the instances. All those of a list may be cut into so many parts, each for a thread of its
    /// own.
    pub fn values<R: Threads + Sync>(
        &self,
        rt: &R,
        alloc: Global,
        store: &Data,
        e: &Expr,
        workers: u32,
    ) -> Result<Vec<Value>, AllocError>
        requires some { 0 < workers }
        requires of { IsTrue (all_of store.now self.now) }
        ensures value { IfOk result (λ vs. vs.items ≡ values store.now (expr_of e.now) self.now) }
    {
        let list = self.list;
        match self.places {
            None => list.values(rt, alloc, store, e, workers),
            Some(places) => list.values_at(alloc, store, e, places),
        }
    }

    /// The aggregate by a method of the values of an expression on the instances, which are of one type. They are cut into pieces, of
    /// which the gate is told and which several threads may take.
    pub fn aggregate<R: Threads + Sync, G: Gate>(
        &self,
        rt: &R,
        alloc: Global,
        store: &Data,
        e: &Expr,
        method: Method,
        workers: u32,
        gate: &G,
    ) -> Result<Value, AllocError>
        requires some { 0 < workers }
        requires few { workers ≤ 64 }
        requires of { IsTrue (all_of store.now self.now) }
        requires kind { AreFoldable method (values store.now (expr_of e.now) self.now) }
        ensures value { IfOk result (λ v. v ≡ aggregate method (values store.now (expr_of e.now) self.now)) }
    {
        let list = self.list;
        match self.places {
            None => list.aggregate(rt, alloc, store, e, method, workers, gate),
            Some(places) => {
                let all = list.values_at(alloc, store, e, places)?;
                aggregate_values(rt, alloc, method, all.as_slice(), workers, gate)
            }
        }
    }

    /// The values of an expression on the instances at places among these.
    pub fn values_at(
        &self,
        alloc: Global,
        store: &Data,
        e: &Expr,
        places: &[usize],
    ) -> Result<Vec<Value>, AllocError>
        requires of { IsTrue (all_of store.now self.now) }
        requires within { IsTrue (list_all (λ k. nat_lt k (length self.now)) places.now) }
        ensures value { IfOk result (λ vs. vs.items ≡ values store.now (expr_of e.now) (at_places self.now places.now)) }
    {
        let list = self.list;
        match self.places {
            None => list.values_at(alloc, store, e, places),
            Some(own) => {
                let inner = places_of(alloc, own, places)?;
                list.values_at(alloc, store, e, inner.as_slice())
            }
        }
    }

    /// The values of the paths on the instances, which borrow their texts: a list for each path. All those of a list may be cut into
    /// so many parts, each for a thread of its own.
    pub fn key_columns<'s, R: Threads + Sync>(
        &'s self,
        rt: &R,
        alloc: Global,
        store: &'s Data,
        paths: &'s [Path],
        workers: u32,
    ) -> Result<Vec<Vec<Seen<'s>>>, AllocError>
        requires some { 0 < workers }
        requires of { IsTrue (all_of store.now self.now) }
        ensures value { IfOk result (λ cs. seen_columns cs.items ≡ key_columns store.now paths.now self.now) }
    {
        let list = self.list;
        match self.places {
            None => list.key_columns(rt, alloc, store, paths, workers),
            Some(places) => list.key_columns_at(alloc, store, paths, places),
        }
    }

    /// The key list of each instance by the paths. All those of a list may be cut into so many parts, each for a thread of its
    /// own.
    pub fn key_lists<R: Threads + Sync>(
        &self,
        rt: &R,
        alloc: Global,
        store: &Data,
        paths: &[Path],
        workers: u32,
    ) -> Result<Vec<Vec<Value>>, AllocError>
        requires some { 0 < workers }
        requires of { IsTrue (all_of store.now self.now) }
        ensures value { IfOk result (λ lists. map (λ k. k.items) lists.items ≡ map (spec.key_list store.now paths.now) self.now) }
    {
        let list = self.list;
        match self.places {
            None => list.key_lists(rt, alloc, store, paths, workers),
            Some(places) => list.key_lists_at(alloc, store, paths, places),
        }
    }
}

/// The places that stand at these places of a list.
fn places_of(alloc: Global, own: &[usize], places: &[usize]) -> Result<Vec<usize>, AllocError>
    requires { IsTrue (list_all (λ k. nat_lt k (length own.now)) places.now) }
    ensures { IfOk result (λ ks. ks.items ≡ at_places own.now places.now) }
{
    let mut found = Vec::with_capacity(alloc, places.len())?;
    for at in places {
        found.push(own[*at])?;
    }
    Ok(found)
}
