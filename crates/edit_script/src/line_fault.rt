//! Why a line, or a part of one, was not read.

ghost use Rattle.std.specs.Prelude.{◌≡◌};
ghost use Rattle.edit_script.specs.declared.line_fault.LineFault.TheVariants.{Memory};

use plain_types::memory::Memory;

#[derive(Clone, Copy)]
pub(crate) enum LineFault {
    NoForm,
    Memory,
}

impl From<Memory> for LineFault {
    ghost from_gives = { λ _ fault. fault ≡ Memory };

    fn from(_memory: Memory) -> LineFault {
        LineFault::Memory
    }
}
