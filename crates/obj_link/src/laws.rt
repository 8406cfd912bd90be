//! What holds of each link.
ghost use Rattle.std.specs.Prelude.{◌≡◌, ◌≢◌, ◌+◌, ◌-◌, ◌*◌, ◌%◌, ◌^◌, ◌<◌, ◌≤◌, ◌+ℤ◌, ◌++◌, ◌∷◌, ℕ, List, [], length, map, take, drop, flat_map, pos, true, false, IsTrue, Contains};
ghost use Rattle.std.specs.Int.{to_le_bytes, w32};
ghost use Rattle.rv_isa.specs.Format.{sign_extended};
ghost use Rattle.rv_isa.specs.declared.inst.Line.{Line};
ghost use Rattle.asm_read.specs.declared.object.Object.{Object};
ghost use Rattle.asm_read.specs.declared.object.ObjectSymbol.{ObjectSymbol};
ghost use Rattle.asm_read.specs.declared.object.Section.TheVariants.{Text};
ghost use Rattle.obj_link.specs.Cause.{IsLinkable, IsUnlinked};
ghost use Rattle.obj_link.specs.Image.{linked_image};
ghost use Rattle.obj_link.specs.Layout.{image_size, instruction_count, low_64, section_begin, symbol_address};
ghost use Rattle.obj_link.specs.Names.{HasDistinctNames, defines, duplicates, undefined};
ghost use Rattle.obj_link.specs.Reach.{IsInReach, LiesNear, signed_64};
ghost use Rattle.obj_link.specs.Words.{are_needs_named, high_part, line_word, low_part, name_address};
ghost use Rattle.obj_link.specs.declared.refusal.Unlinked.{Unlinked};
ghost use Rattle.obj_link.specs.declared.refusal.Unlinked.TheVariants.{NoMemory};

/// The upper part of an address, moved up by 12 bits, and the signed lower part make the address:
/// modulo 2^32, as it is where sign extension from 32 bits doesn't change the upper part, and as a signed
/// number where that extends the upper part of an address in reach.
pub fn parts_make_the_address()
    ensures modulo { (address : ℕ)
        → low_64 (pos (0x1000 * high_part address) +ℤ low_part address) % 2 ^ 32 ≡ address % 2 ^ 32 }
    ensures exact { (address : ℕ) → address < 2 ^ 31 - 2 ^ 11
        → (high_part address < 2 ^ 19) × (pos (0x1000 * high_part address) +ℤ low_part address ≡ pos address) }
    ensures signed { (address : ℕ) → address < 2 ^ 64 → IsInReach address
        → sign_extended 32 (0x1000 * high_part address) +ℤ low_part address ≡ signed_64 address }
{}

/// Where each need has a definition, each has an address.
pub fn needs_have_addresses()
    ensures { (objects : List Object) → undefined objects ≡ [] → IsTrue (are_needs_named objects) }
{}

/// A name stands for one symbol: in the object that defines it for the object's own, and in each other
/// object for the one global symbol of that name.
pub fn names_have_one_address()
    ensures own { (objects before : List Object) (object : Object) (symbol : ObjectSymbol)
        → HasDistinctNames object → Contains object.symbols symbol
        → name_address objects before object symbol.name
        ≡ symbol_address (section_begin objects before object symbol.section) symbol }
    ensures global { (objects before prefix back : List Object) (object other : Object) (symbol : ObjectSymbol)
        → objects ≡ prefix ++ other ∷ back → duplicates objects ≡ [] → HasDistinctNames other
        → Contains other.symbols symbol → symbol.global ≡ true → defines object symbol.name ≡ false
        → name_address objects before object symbol.name
        ≡ symbol_address (section_begin objects prefix other symbol.section) symbol }
{}

/// The words of an object's lines lie behind those of the objects and the lines before them, each with its low
/// byte first, and a symbol's address is that of the line at its offset.
pub fn lines_lie_in_order()
    ensures words { (objects before after : List Object) (object : Object) (prefix lines back : List Line)
        → objects ≡ before ++ object ∷ after → object.words ≡ prefix ++ (lines ++ back)
        → take (4 * length lines)
        (drop (4 * (instruction_count before + length prefix)) (linked_image objects).bytes)
        ≡ flat_map (to_le_bytes w32) (map (line_word (name_address objects before object)) lines) }
    ensures symbols { (objects before after : List Object) (object : Object) (symbol : ObjectSymbol) (k : ℕ)
        → symbol.section ≡ Text → objects ≡ before ++ object ∷ after → image_size objects ≤ 67108864
        → symbol.offset ≡ pos (4 * k) → k ≤ length object.words
        → symbol_address (section_begin objects before object symbol.section) symbol
        ≡ 0x10000 + 4 * (instruction_count before + k) }
{}

/// The address of a symbol that lies near its image is in reach of two instructions.
pub fn symbols_are_in_reach()
    ensures { (objects before : List Object) (object : Object) (symbol : ObjectSymbol)
        → image_size objects ≤ 67108864 → LiesNear objects before symbol
        → IsInReach (symbol_address (section_begin objects before object symbol.section) symbol) }
{}

/// An image has as many bytes as its objects together, four for each instruction.
pub fn images_have_their_size()
    ensures bytes { (objects : List Object) → length (linked_image objects).bytes ≡ image_size objects }
    ensures instructions { (objects : List Object)
        → length (linked_image objects).bytes ≡ 4 * (linked_image objects).instructions }
{}

/// Where objects can be linked, linking fails only if memory runs out, and else for one cause beside that.
pub fn objects_have_one_answer()
    ensures excludes { (objects : List Object) (why : Unlinked)
        → IsLinkable objects → IsUnlinked why objects → why ≡ NoMemory }
    ensures unique { (objects : List Object) (one other : Unlinked)
        → IsUnlinked one objects → IsUnlinked other objects
        → one ≢ NoMemory → other ≢ NoMemory → one ≡ other }
{}
