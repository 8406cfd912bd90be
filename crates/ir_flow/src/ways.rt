//! The ways between a function's blocks.
ghost use Rattle.std.specs.Prelude.{◌≡◌, IfOk, option_map};
ghost use Rattle.ir_cfg.specs.Reached.{label_place};
ghost use Rattle.ir_flow.specs.Cases.{AreCases, IsCase};
ghost use Rattle.ir_flow.specs.Edges.{AreTaken, IsEdge, IsEdgeTo, IsTaken};
ghost use Rattle.ir_flow.specs.Exits.{IsBranch, IsExit, IsSwitch};
ghost use Rattle.ir_loaded.specs.Pairs.{loaded};
ghost use Rattle.ir_sem.specs.Configs.{blocks_of};
ghost use Rattle.ir_sem.specs.Operands.{bits_of};
ghost use Rattle.ir_sem.specs.Terminators.{entry_from};
ghost use Rattle.ir_slots.specs.Slots.{slot_names};
ghost use Rattle.ir_slots.specs.Sources.{IsInput};

use crate::edge::{CaseEdge, CaseEdges, Edge};
use crate::exit::Exit;
use ir_cfg::label_places;
use ir_ident::{Name, NameMap, NameUse};
use ir_loaded::LoadedModule;
use ir_sem::Value;
use ir_slots::{Input, Inputs, SlotMap, Source, Width};
use ir_syntax::{Block, Case, Cases, Function, Operand, Phi, PhiEntry, Term, TyText};
use std::alloc::{AllocError, Global};
use std::marker::Model;

/// What the terminators of a function's blocks lead to. Contracts see the module with its addresses, and the function.
#[derive(Drop)]
pub struct Ways<'r, 'a> {
    module: &'r LoadedModule<'a>,
    slots: &'r SlotMap<'a>,
    blocks: &'a [Block],
    places: NameMap<'a, usize>,
}

impl<'r, 'a> Model for Ways<'r, 'a> {
    ghost use Rattle.std.specs.Prelude.{◌≡◌, ℕ, List};
    ghost use Rattle.std.specs.Coded.{coded_list, coded×, coded_ℕ};
    ghost use Rattle.ir_cfg.specs.Reached.{label_place};
    ghost use Rattle.ir_ident.specs.NameMaps.{value_of};
    ghost use Rattle.ir_ident.specs.declared.name.Name.{Name};
    ghost use Rattle.ir_sem.specs.Configs.{blocks_of};
    ghost use Rattle.ir_syntax.specs.declared.function.Function.{Function};
    ghost use Rattle.ir_syntax.specs.declared.module.Module.{Module};
    ghost use Rattle.ir_syntax.specs.contracts.function.Function as functions;
    ghost use Rattle.ir_syntax.specs.contracts.module.Module as modules;

    ghost Value = { (Module × List ℕ) × Function };

    ghost coded = { coded× (coded× modules.the_row.coded (coded_list coded_ℕ)) functions.the_row.coded };

    ghost view = { λ w. (w.module.now, w.slots.now) };

    ghost invariant = { λ w. (w.blocks.now ≡ blocks_of w.slots.now)
        × ((name : Name) → value_of w.places name ≡ label_place (blocks_of w.slots.now) name) };
}

impl<'r, 'a> Ways<'r, 'a> {
    /// The ways of a function with these slots.
    ///
    /// # Errors
    ///
    /// [`AllocError`].
    pub fn new(
        alloc: Global,
        module: &'r LoadedModule<'a>,
        slots: &'r SlotMap<'a>,
    ) -> Result<Ways<'r, 'a>, AllocError>
        ensures { IfOk result (λ ways. ways ≡ (module.now, slots.now)) }
    {
        let blocks = blocks_of(slots.function());
        let places = label_places(alloc, blocks)?;
        Ok(Ways {
            module,
            slots,
            blocks,
            places,
        })
    }

    /// The blocks of the function.
    pub fn blocks(&self) -> &'a [Block]
        ensures { result.now ≡ blocks_of self.now.1 }
    {
        self.blocks
    }

    /// The place of the block of a label.
    fn place(&self, label: &Name) -> Option<usize>
        ensures { result ≡ label_place (blocks_of self.now.1) label.now }
    {
        self.places.get(label)
    }

    /// An operand of a type.
    fn input(&self, ty: &TyText, operand: &'a Operand) -> Input
        ensures value { IsInput (loaded self.now.0) (slot_names self.now.1) ty.now operand.now result }
        ensures width { result.width ≡ bits_of ty.now }
    {
        self.slots.input(self.module, ty, operand)
    }

    /// What a terminator of the block of a label leads to.
    ///
    /// # Errors
    ///
    /// [`AllocError`].
    #[tactic(auto, using(crate::proofs::ExitLemmas::return_void, crate::proofs::ExitLemmas::returns_value, crate::proofs::ExitLemmas::jumps, crate::proofs::ExitLemmas::branches_on, crate::proofs::ExitLemmas::switches_on, crate::proofs::ExitLemmas::unreachable))]
    pub fn exit(&self, alloc: Global, from: &Name, term: &'a Term) -> Result<Exit, AllocError>
        ensures { IfOk result (λ exit. IsExit (loaded self.now.0) self.now.1 from.now term.now exit) }
    {
        match term {
            Term::ReturnVoid { .. } => Ok(Exit::ReturnVoid),
            Term::Ret { ty, value, .. } => Ok(Exit::Return(self.input(ty, value))),
            Term::Br { target, .. } => Ok(Exit::Jump(self.edge(alloc, from, &target.name)?)),
            Term::CondBr {
                ty,
                condition,
                then_target,
                else_target,
                ..
            } => self.branch(
                alloc,
                from,
                self.input(ty, condition),
                then_target,
                else_target,
            ),
            Term::Switch {
                ty,
                value,
                default,
                cases,
                ..
            } => self.switch(alloc, from, self.input(ty, value), default, cases),
            Term::Unreachable { .. } => Ok(Exit::Unreachable),
        }
    }

    #[tactic(auto, using(crate::proofs::ExitLemmas::branches))]
    fn branch(
        &self,
        alloc: Global,
        from: &Name,
        condition: Input,
        then_target: &NameUse,
        else_target: &NameUse,
    ) -> Result<Exit, AllocError>
        ensures { IfOk result (λ exit. IsBranch (loaded self.now.0) self.now.1 from.now condition then_target.now else_target.now exit) }
    {
        let then_edge = self.edge(alloc, from, &then_target.name)?;
        let else_edge = self.edge(alloc, from, &else_target.name)?;
        Ok(Exit::Branch {
            condition,
            then_edge,
            else_edge,
        })
    }

    #[tactic(auto, using(crate::proofs::ExitLemmas::switches))]
    fn switch(
        &self,
        alloc: Global,
        from: &Name,
        value: Input,
        default: &NameUse,
        cases: &'a Cases,
    ) -> Result<Exit, AllocError>
        ensures { IfOk result (λ exit. IsSwitch (loaded self.now.0) self.now.1 from.now value default.now cases.now exit) }
    {
        let default = self.edge(alloc, from, &default.name)?;
        let cases = self.cases(alloc, from, value.width, cases.as_slice())?;
        Ok(Exit::Switch {
            value,
            default,
            cases,
        })
    }

    /// The edges of cases whose numbers have so many bits.
    #[tactic(auto, using(crate::proofs::CaseLemmas::cases_more))]
    fn cases(
        &self,
        alloc: Global,
        from: &Name,
        width: Width,
        cases: &'a [Case],
    ) -> Result<CaseEdges, AllocError>
        ensures { IfOk result (λ edges. AreCases (loaded self.now.0) self.now.1 from.now width cases.now edges) }
    {
        let mut edges = Vec::new(alloc);
        for case in cases {
            edges.push(self.case(alloc, from, width, case)?)?;
        }
        Ok(CaseEdges::from_vec(edges))
    }

    fn case(
        &self,
        alloc: Global,
        from: &Name,
        width: Width,
        case: &'a Case,
    ) -> Result<CaseEdge, AllocError>
        ensures { IfOk result (λ edge. IsCase (loaded self.now.0) self.now.1 from.now width case.now edge) }
    {
        let edge = self.edge(alloc, from, &case.target.name)?;
        let number = case.value.wrapped(width.bits()) as u64;
        Ok(CaseEdge { number, edge })
    }

    /// The edge from a block to that of a label; none where no block has it.
    #[tactic(auto, using(crate::proofs::EdgeLemmas::no_edge, crate::proofs::EdgeLemmas::edge_leads))]
    fn edge(&self, alloc: Global, from: &Name, label: &Name) -> Result<Option<Edge>, AllocError>
        ensures { IfOk result (λ edge. IsEdge (loaded self.now.0) self.now.1 from.now label.now edge) }
    {
        match self.place(label) {
            Some(to) => self.edge_to(alloc, from, to),
            None => Ok(None),
        }
    }

    /// The edge from a block to that at a place.
    fn edge_to(&self, alloc: Global, from: &Name, to: usize) -> Result<Option<Edge>, AllocError>
        ensures { IfOk result (λ edge. IsEdgeTo (loaded self.now.0) self.now.1 from.now to edge) }
    {
        match self.blocks.get(to) {
            Some(block) => {
                let values = self.taken(alloc, from, block.phis.as_slice())?;
                Ok(Some(Edge { to, values }))
            }
            None => Ok(None),
        }
    }

    /// What phis take on the way from a block.
    #[tactic(auto, using(crate::proofs::EdgeLemmas::taken_more))]
    fn taken(&self, alloc: Global, from: &Name, phis: &'a [Phi]) -> Result<Inputs, AllocError>
        ensures { IfOk result (λ inputs. AreTaken (loaded self.now.0) (slot_names self.now.1) from.now phis.now inputs) }
    {
        let mut inputs = Vec::new(alloc);
        for phi in phis {
            inputs.push(self.taken_by(from, phi))?;
        }
        Ok(Inputs::from_vec(inputs))
    }

    #[tactic(auto, using(crate::proofs::EdgeLemmas::taken_from, crate::proofs::EdgeLemmas::taken_nowhere))]
    fn taken_by(&self, from: &Name, phi: &'a Phi) -> Input
        ensures { IsTaken (loaded self.now.0) (slot_names self.now.1) from.now phi.now result }
    {
        match entry_from(from, phi.entries.as_slice()) {
            Some(entry) => self.input(&phi.ty, &entry.value),
            None => Input {
                width: Width::of(&phi.ty),
                source: Source::Constant(Value::Poison),
            },
        }
    }
}

/// The first entry of a block.
fn entry_from<'e>(from: &Name, entries: &'e [PhiEntry]) -> Option<&'e PhiEntry>
    ensures { option_map (λ entry. entry.now) result ≡ entry_from from.now entries.now }
{
    for entry in entries {
        if entry.block.name.is_same(from) {
            return Some(entry);
        }
    }
    None
}

/// The blocks of a function; a declared one has none.
fn blocks_of(f: &Function) -> &[Block]
    ensures { result.now ≡ blocks_of f.now }
{
    match &f.blocks {
        Some(blocks) => blocks.as_slice(),
        None => &[],
    }
}
