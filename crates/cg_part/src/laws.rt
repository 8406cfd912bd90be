//! What holds of each text, and of each module's.
ghost use Rattle.std.specs.Prelude.{◌≡◌, ◌≢◌, ◌∷◌, [], ℕ, List};
ghost use Rattle.asm_read.specs.Assembly.{Assembles};
ghost use Rattle.asm_read.specs.declared.object.Object.{Object};
ghost use Rattle.cg_built.specs.Unbuilt.{IsBuilt};
ghost use Rattle.ir_syntax.specs.declared.function.Function.{Function};
ghost use Rattle.ir_syntax.specs.declared.module.Module.{Module};
ghost use Rattle.obj_link.specs.declared.image.Image.{Image};
ghost use Rattle.obj_link.specs.declared.refusal.Unlinked.{Unlinked};
ghost use Rattle.obj_link.specs.declared.refusal.Unlinked.TheVariants.{NoMemory};
ghost use Rattle.cg_part.specs.Allowed.{Allowed, RunsAllowed};
ghost use Rattle.cg_part.specs.Linking.{AreUnlinked, IsImageOf};
ghost use Rattle.cg_part.specs.Meaning.{IsMain};
ghost use Rattle.cg_part.specs.Text.{part_text};

/// A text assembles to one object at most. Texts have one image at most; where they have one, linking
/// fails only if memory runs out, and else for one cause beside that.
pub fn texts_have_one_image()
    ensures object { (text : List ℕ) (one other : Object)
        → Assembles text one → Assembles text other → one ≡ other }
    ensures image { (texts : List (List ℕ)) (one other : Image)
        → IsImageOf texts one → IsImageOf texts other → one ≡ other }
    ensures excludes { (texts : List (List ℕ)) (image : Image) (why : Unlinked)
        → IsImageOf texts image → AreUnlinked texts why → why ≡ NoMemory }
    ensures cause { (texts : List (List ℕ)) (one other : Unlinked)
        → AreUnlinked texts one → AreUnlinked texts other
        → one ≢ NoMemory → other ≢ NoMemory → one ≡ other }
{}

/// Whatever the input and the number of steps, the image of a module's text shows what the module allows.
pub fn runs_are_allowed()
    ensures text { (m : Module) → IsBuilt m → RunsAllowed m (part_text m ∷ []) }
    ensures image { (m : Module) (main : Function) (image : Image)
        → IsBuilt m → IsMain m main → IsImageOf (part_text m ∷ []) image
        → (input : List ℕ) (n : ℕ) → Allowed m image input n }
{}
