//! What holds of the text of any items.
ghost use Rattle.std.specs.Prelude.{◌≡◌, ℕ, List, [], ◌∷◌, All, map};
ghost use Rattle.std.specs.List.{filter};
ghost use Rattle.rv_isa.specs.Symbol.{spelled};
ghost use Rattle.asm_read.specs.Assembly.{Assembles, IsRefusal};
ghost use Rattle.asm_read.specs.declared.object.Object.{Object};
ghost use Rattle.asm_read.specs.declared.refusal.AsmRefusal.TheVariants as refusal;
ghost use Rattle.asm_print.specs.Items.{AreItems, IsItem, Item, items_text, object_of};
ghost use Rattle.asm_print.specs.Resolving.{Resolves};
ghost use Rattle.asm_print.specs.Symbols.{globals_of, needs_of, symbols_of};

/// The text of items assembles to their object and to no other, and no line of it is refused.
pub fn items_assemble()
    ensures object { (items : List Item) → AreItems items → Assembles (items_text items) (object_of items) }
    ensures only { (items : List Item) (object : Object) → AreItems items
        → Assembles (items_text items) object → object ≡ object_of items }
    ensures accepted { (items : List Item) (line : ℕ) → AreItems items
        → IsRefusal (items_text items) (refusal.Line line) → ⊥ }
{}

/// The text of items defines their symbols, exports those that are exported, and needs none.
pub fn items_show_symbols()
    ensures defined { (items : List Item) → All IsItem items
        → symbols_of (items_text items) ≡ map (λ item. spelled item.name) items }
    ensures exported { (items : List Item) → All IsItem items
        → globals_of (items_text items) ≡ map (λ item. spelled item.name) (filter (λ item. item.exported) items) }
    ensures needed { (items : List Item) → All IsItem items → needs_of (items_text items) ≡ [] }
{}

/// One text of items resolves, whatever is declared, where the symbols that are defined are theirs.
pub fn items_resolve()
    ensures { (items : List Item) (declared : List (List ℕ)) → All IsItem items
        → Resolves (map (λ item. spelled item.name) items) declared (items_text items ∷ []) }
{}
