//! How a block is left.
ghost use Rattle.std.specs.Prelude.{◌≡◌};
ghost use Rattle.ir_flow.specs.Exits.{branch_way, case_edge, edge_way, switch_way, way, way_of};

use crate::edge::{CaseEdge, CaseEdges, Edge};
use ir_sem::Value;
use ir_slots::Input;

/// What ends a block, with its edges; one to a label that no block has is none.
#[derive(Drop)]
pub enum Exit {
    /// `ret void`.
    ReturnVoid,
    /// `ret` of a value.
    Return(Input),
    /// `br` to one block.
    Jump(Option<Edge>),
    /// `br` on a condition.
    Branch {
        /// The condition.
        condition: Input,
        /// The way where it is true.
        then_edge: Option<Edge>,
        /// The way where it is false.
        else_edge: Option<Edge>,
    },
    /// `switch`.
    Switch {
        /// The value.
        value: Input,
        /// The way where no case has it.
        default: Option<Edge>,
        /// The ways of the cases.
        cases: CaseEdges,
    },
    /// `unreachable`.
    Unreachable,
}

/// Where a run goes from the end of a block.
pub enum Turn<'a> {
    /// Back to the call, with a value or none.
    Back(Option<Value>),
    /// Along an edge.
    Along(&'a Edge),
    /// Nowhere: that is undefined behaviour.
    Nowhere,
}

impl Exit {
    /// Where it leads, where the slots have these values.
    pub fn turn(&self, values: &[Value]) -> Turn<'_>
        ensures { way_of result ≡ way values.now self.now }
    {
        match self {
            Exit::ReturnVoid => Turn::Back(None),
            Exit::Return(value) => Turn::Back(Some(value.value(values))),
            Exit::Jump(edge) => edge_turn(edge),
            Exit::Branch {
                condition,
                then_edge,
                else_edge,
            } => branch_turn(then_edge, else_edge, condition.value(values)),
            Exit::Switch {
                value,
                default,
                cases,
            } => switch_turn(default, cases.as_slice(), value.value(values)),
            Exit::Unreachable => Turn::Nowhere,
        }
    }
}

fn edge_turn(edge: &Option<Edge>) -> Turn<'_>
    ensures { way_of result ≡ edge_way edge.now }
{
    match edge {
        Some(edge) => Turn::Along(edge),
        None => Turn::Nowhere,
    }
}

fn branch_turn<'a>(
    then_edge: &'a Option<Edge>,
    else_edge: &'a Option<Edge>,
    condition: Value,
) -> Turn<'a>
    ensures { way_of result ≡ branch_way then_edge.now else_edge.now condition }
{
    match condition {
        Value::Number(0) => edge_turn(else_edge),
        Value::Number(_) => edge_turn(then_edge),
        Value::Poison => Turn::Nowhere,
    }
}

fn switch_turn<'a>(default: &'a Option<Edge>, cases: &'a [CaseEdge], value: Value) -> Turn<'a>
    ensures { way_of result ≡ switch_way default.now cases.now value }
{
    match value {
        Value::Number(number) => edge_turn(case_edge(number, default, cases)),
        Value::Poison => Turn::Nowhere,
    }
}

/// The edge of the first case with a number, or else the default.
fn case_edge<'a>(number: u64, default: &'a Option<Edge>, cases: &'a [CaseEdge]) -> &'a Option<Edge>
    ensures { result.now ≡ case_edge number default.now cases.now }
{
    for case in cases {
        if case.number == number {
            return &case.edge;
        }
    }
    default
}
