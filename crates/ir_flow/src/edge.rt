//! Edges between blocks.
ghost use Rattle.std.specs.Prelude.{◌≡◌};

use ir_slots::Inputs;
use std::marker::Model;

/// An edge to a block.
#[derive(Drop)]
pub struct Edge {
    /// The place of the block among those of its function, counted from 0.
    pub to: usize,
    /// What its phis take, in their order.
    pub values: Inputs,
}

/// The edge of a case of a `switch`.
#[derive(Drop)]
pub struct CaseEdge {
    /// The number of the case.
    pub number: u64,
    /// Its edge; none where no block has the label.
    pub edge: Option<Edge>,
}

/// The edges of the cases of a `switch` in order. Contracts see a list.
#[derive(Drop)]
pub struct CaseEdges {
    cases: Vec<CaseEdge>,
}

impl Model for CaseEdges {
    ghost use Rattle.std.specs.Prelude.{List};
    ghost use Rattle.std.specs.Coded.{coded_list};
    ghost use Rattle.ir_flow.specs.declared.edge.CaseEdge.{CaseEdge};
    ghost use Rattle.ir_flow.specs.contracts.edge.CaseEdge as case_edge;

    ghost Value = { List CaseEdge };

    ghost coded = { coded_list case_edge.the_row.coded };

    ghost view = { λ c. c.cases.items };
}

impl CaseEdges {
    /// These edges, in their order.
    pub fn from_vec(cases: Vec<CaseEdge>) -> CaseEdges
        ensures { result ≡ cases.items }
    {
        CaseEdges { cases }
    }

    /// The edges in order.
    pub fn as_slice(&self) -> &[CaseEdge]
        ensures { result.now ≡ self.now }
    {
        self.cases.as_slice()
    }
}
