//! That the table says what the definitions say.
ghost use Rattle.abc_predef.specs.ResultTypes.{OneGivesItsType, TwoGiveTheirType};
ghost use Rattle.abc_predef.specs.Signatures.{IsTypedSo};
ghost use Rattle.abc_predef.specs.Spellings.{IsSpelledSo, IsSpelledOnlySo};
ghost use Rattle.abc_predef.specs.Taken.{TakenIsExact};

/// Each of the 43 operations stands in the table under its name or sign, with its number of operands, and under no other.
pub fn operations_are_spelled()
    ensures so { IsSpelledSo }
    ensures only { IsSpelledOnlySo }
{}

/// Each of the 43 operations has a row in the table, with the types of its operands and of its result.
pub fn operations_are_typed()
    ensures { IsTypedSo }
{}

/// What a row gives has the type of its result, where one type e stands for the letter in operands and result.
pub fn results_have_their_types()
    ensures one { OneGivesItsType }
    ensures two { TwoGiveTheirType }
{}

/// Operands are taken, which says that types for the letters exist, exactly where it is computed by their forms.
pub fn taken_is_exact()
    ensures { TakenIsExact }
{}
