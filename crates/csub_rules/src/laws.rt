//! Laws of the rules, each the contract of a function that does nothing.
ghost use Rattle.csub_rules.specs.ExprLaws.{FaultsAreBroken, FaultsAreLeast, NoFaultNothingBroken, NoFaultIsFine};
ghost use Rattle.csub_rules.specs.BrokenUse.{UseFaultsAreBroken, UseFaultsAreLeast, NoUseFaultNothingBroken, NoUseFaultIsFine};
ghost use Rattle.csub_rules.specs.BrokenUse.{EnumFaultsAreBroken, EnumFaultsAreLeast, NoEnumFaultNothingBroken, NoEnumFaultIsFine};
ghost use Rattle.csub_rules.specs.Sizes.{SizesAreDecided};
ghost use Rattle.csub_rules.specs.BrokenSlot.{BaseFaultsAreBroken, BaseFaultsAreLeast, NoBaseFaultNothingBroken, NoBaseFaultIsFine};
ghost use Rattle.csub_rules.specs.BrokenSlot.{SlotFaultsAreBroken, SlotFaultsAreLeast, NoSlotFaultNothingBroken, NoSlotFaultIsFine};
ghost use Rattle.csub_rules.specs.Params.{ParamFaultsAreBroken, ParamFaultsAreLeast, NoParamFaultNothingBroken, NoParamFaultIsFine};
ghost use Rattle.csub_rules.specs.BrokenInit.{InitFaultsAreBroken, InitFaultsAreLeast, NoInitFaultNothingBroken, NoInitFaultIsFine};
ghost use Rattle.csub_rules.specs.StmtLaws.{StmtFaultsAreBroken, StmtFaultsAreLeast, NoStmtFaultNothingBroken, NoStmtFaultIsFine};
ghost use Rattle.csub_rules.specs.StmtLaws.{LineFaultsAreBroken, LineFaultsAreLeast, NoLineFaultNothingBroken, NoLineFaultIsFine};
ghost use Rattle.csub_rules.specs.Bodies.{BodyFaultsAreBroken, BodyFaultsAreLeast, NoBodyFaultNothingBroken, NoBodyFaultIsFine};
ghost use Rattle.csub_rules.specs.UnitLaws.{UnitFaultsAreBroken, UnitFaultsAreLeast, NoUnitFaultNothingBroken};
ghost use Rattle.csub_rules.specs.FineItems.{NoUnitFaultIsFine};

/// The fault of an expression is a rule that is broken there, and no rule is broken before it. Where there is no fault, no
/// rule is broken, and the expression can be resolved.
pub fn expressions()
    ensures sound { FaultsAreBroken }
    ensures least { FaultsAreLeast }
    ensures complete { NoFaultNothingBroken }
    ensures fine { NoFaultIsFine }
{}

/// The same of an expression where it stands by itself: as a statement, as a part of a `for`, as a number or as a constant.
pub fn uses()
    ensures sound { UseFaultsAreBroken }
    ensures least { UseFaultsAreLeast }
    ensures complete { NoUseFaultNothingBroken }
    ensures fine { NoUseFaultIsFine }
{}

/// The same of an enum constant.
pub fn enum_constants()
    ensures sound { EnumFaultsAreBroken }
    ensures least { EnumFaultsAreLeast }
    ensures complete { NoEnumFaultNothingBroken }
    ensures fine { NoEnumFaultIsFine }
{}

/// The limits of types as truth values are those of `csub_objects`.
pub fn sizes()
    ensures { SizesAreDecided }
{}

/// The fault of the type that a declaration begins with is a broken rule, and no rule is broken before it; where there is no
/// fault, no rule is broken, and the type is known.
pub fn bases()
    ensures sound { BaseFaultsAreBroken }
    ensures least { BaseFaultsAreLeast }
    ensures complete { NoBaseFaultNothingBroken }
    ensures fine { NoBaseFaultIsFine }
{}

/// The same of a declared name with its lengths; without a fault its type is known, and an object may have it.
pub fn slots()
    ensures sound { SlotFaultsAreBroken }
    ensures least { SlotFaultsAreLeast }
    ensures complete { NoSlotFaultNothingBroken }
    ensures fine { NoSlotFaultIsFine }
{}

/// The same of a parameter's type; without a fault it is known.
pub fn parameters()
    ensures sound { ParamFaultsAreBroken }
    ensures least { ParamFaultsAreLeast }
    ensures complete { NoParamFaultNothingBroken }
    ensures fine { NoParamFaultIsFine }
{}

/// The same of an initialiser of an object of a type; without a fault it fits the type.
pub fn initialisers()
    ensures sound { InitFaultsAreBroken }
    ensures least { InitFaultsAreLeast }
    ensures complete { NoInitFaultNothingBroken }
    ensures fine { NoInitFaultIsFine }
{}

/// The same of a statement; without a fault it can be resolved, where each object that it sees has a type.
pub fn statements()
    ensures sound { StmtFaultsAreBroken }
    ensures least { StmtFaultsAreLeast }
    ensures complete { NoStmtFaultNothingBroken }
    ensures fine { NoStmtFaultIsFine }
{}

/// The same of lines one after the other, as they stand in a block.
pub fn lines()
    ensures sound { LineFaultsAreBroken }
    ensures least { LineFaultsAreLeast }
    ensures complete { NoLineFaultNothingBroken }
    ensures fine { NoLineFaultIsFine }
{}

/// The same of the body of a function, in which the labels differ too.
pub fn bodies()
    ensures sound { BodyFaultsAreBroken }
    ensures least { BodyFaultsAreLeast }
    ensures complete { NoBodyFaultNothingBroken }
    ensures fine { NoBodyFaultIsFine }
{}

/// The fault of a source is a rule that is broken there, and no rule is broken before it; a missing `main` is told where
/// nothing else is. Where there is no fault, no rule is broken, and each item can be resolved.
pub fn units()
    ensures sound { UnitFaultsAreBroken }
    ensures least { UnitFaultsAreLeast }
    ensures complete { NoUnitFaultNothingBroken }
    ensures fine { NoUnitFaultIsFine }
{}
