//! The types of a module that is checked.
ghost use Rattle.std.specs.Prelude.{◌≡◌};
ghost use Rattle.ir_mentions.specs.Mentions.{mentioned_places, mentions};
ghost use Rattle.ir_plan.specs.Planned.{planned, planned_types};
ghost use Rattle.ir_prune.specs.Pruned.{pruned};
ghost use Rattle.ir_syntax.specs.declared.module.Module.{Module};
ghost use Rattle.ir_unname.specs.Unnamed.{unnamed};
ghost use Rattle.ty_core.specs.Plans.{all_places};

/// Where the blocks that no path reaches are dropped, and types are written without names, a module is about the types
/// that it was about before in the blocks that some path reaches: they have the places that were counted.
pub fn checked_types_were_counted()
    ensures types { (m : Module) → planned_types (unnamed (pruned m)) ≡ planned m.types (mentions m) }
    ensures places { (m : Module) → all_places (planned_types (unnamed (pruned m))) ≡ mentioned_places m }
{}
