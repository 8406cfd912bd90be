//! Types that are few enough to be shared out (LangRef, "Type System").
ghost use Rattle.std.specs.Prelude.{◌≡◌, ◌≤◌, IfOk, IfErr, List, length};
ghost use Rattle.ty_core.specs.Plans.{IsPlanEnd, all_nodes, all_places, plan_limit, trees_in};
ghost use Rattle.ty_core.specs.Tree.{Tree};

use crate::copy::copied_list;
use crate::count::list_places;
use crate::plan_end::PlanEnd;
use crate::types::TyList;
use std::alloc::{AllocError, Global};
use std::marker::Model;

/// The most places that the types of a plan may have.
const PLAN_LIMIT: u64 = 4_194_304;

/// Types in order, of at most 4,194,304 places in all. Contracts see a list of them.
pub struct TyPlan {
    types: TyList,
    places: u64,
}

impl Drop for TyPlan {
    fn drop(self) {
        let TyPlan { types, places: _ } = self;
        drop(types);
    }
}

impl Model for TyPlan {
    ghost use Rattle.std.specs.Prelude.{◌≡◌, ◌≤◌, List};
    ghost use Rattle.std.specs.Coded.{coded_list};
    ghost use Rattle.ty_core.specs.Plans.{all_places, plan_limit, trees_in};
    ghost use Rattle.ty_core.specs.Tree.{Tree};
    ghost use Rattle.ty_core.specs.TreeCodes.{tree_code};

    ghost Value = { List Tree };

    ghost coded = { coded_list tree_code };

    ghost view = { λ p. trees_in p.types };

    ghost invariant = { λ p. (p.places ≡ all_places (trees_in p.types)) × (p.places ≤ plan_limit) };
}

impl TyPlan {
    /// The plan of these types. No place is made of types that have too many.
    ///
    /// # Errors
    ///
    /// [`PlanEnd::TooMany`] exactly where the types have more than 4,194,304 places.
    pub fn of(alloc: Global, types: &TyList) -> Result<TyPlan, PlanEnd>
        ensures ok { IfOk result (λ plan. plan ≡ trees_in types.now) }
        ensures within { IfOk result (λ plan. all_places plan ≤ plan_limit) }
        ensures err { IfErr result (IsPlanEnd (trees_in types.now)) }
    {
        let places = list_places(types);
        if places > PLAN_LIMIT {
            return Err(PlanEnd::TooMany { places });
        }
        match copied_list(alloc, types) {
            Ok(types) => Ok(TyPlan { types, places }),
            Err(_) => Err(PlanEnd::NoMemory),
        }
    }

    /// The number of places of all its types.
    pub fn places(&self) -> u64
        ensures value { result ≡ all_places self.now }
        ensures within { result ≤ plan_limit }
    {
        self.places
    }

    /// Its types in order.
    pub fn types(&self) -> &TyList
        ensures { trees_in result.now ≡ self.now }
    {
        &self.types
    }

    /// Another plan of the same types.
    pub fn copy(&self, alloc: Global) -> Result<TyPlan, AllocError>
        ensures { IfOk result (λ plan. plan ≡ self.now) }
    {
        let types = copied_list(alloc, &self.types)?;
        Ok(TyPlan {
            types,
            places: self.places,
        })
    }
}

/// A type, or a cell of a field, has a place wherever it stands: there are as many places as nodes.
pub fn each_node_has_a_place()
    ensures { (trees : List Tree) → length (all_nodes trees) ≡ all_places trees }
{}
