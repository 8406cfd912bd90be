//! Where the sections of an object begin.
ghost use Rattle.std.specs.Prelude.{◌≡◌};
ghost use Rattle.obj_link.specs.Layout.{begin_in};

use asm_read::Section;

/// The addresses at which the sections of an object begin.
#[derive(Clone, Copy)]
pub struct SectionAddresses {
    /// That of its instructions.
    pub text: u64,
}

impl SectionAddresses {
    /// The address at which a section begins.
    pub fn of(self, section: Section) -> u64
        ensures { result ≡ begin_in self section }
    {
        match section {
            Section::Text => self.text,
        }
    }
}
