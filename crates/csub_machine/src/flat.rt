//! The flat copy that a machine runs.
ghost use Rattle.std.specs.Prelude.{◌≡◌};
ghost use Rattle.csub_machine.specs.Flat.{flat_of};

use csub_flat::FlatProgram;

/// The flat copy of a program: a machine's own, or one that several machines share.
#[derive(Drop)]
pub enum Flat<'a> {
    /// A copy of its own.
    Own(FlatProgram),
    /// A copy that others may run as well.
    Shared(&'a FlatProgram),
}

/// The copy.
#[inline(always)]
pub fn copy_in<'f>(flat: &'f Flat<'_>) -> &'f FlatProgram
    ensures { result.now ≡ flat_of flat.now }
{
    match flat {
        Flat::Own(copy) => copy,
        Flat::Shared(copy) => copy,
    }
}
