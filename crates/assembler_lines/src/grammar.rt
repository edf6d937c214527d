ghost use Rattle.std.specs.Prelude.{List};
ghost use Rattle.assembler_lines.specs.Terms.{Term};
ghost use Rattle.assembler_lines.specs.Grammar.{LoneName, TwoNames, NameAndValue, NameAndWide, NameAndAddress};
ghost use Rattle.assembler_lines.specs.Grammar.{AddressAndConstant, AddressAndName, LoneTarget, NameValueAndTarget};

/// The shapes of instructions are read from just the terms that their grammar writes. It is a law, and does nothing.
pub fn shapes_as_written()
    ensures lone_name { (terms : List Term) → LoneName terms }
    ensures two_names { (terms : List Term) → TwoNames terms }
    ensures name_and_value { (terms : List Term) → NameAndValue terms }
    ensures name_and_wide { (terms : List Term) → NameAndWide terms }
    ensures name_and_address { (terms : List Term) → NameAndAddress terms }
    ensures address_and_constant { (terms : List Term) → AddressAndConstant terms }
    ensures address_and_name { (terms : List Term) → AddressAndName terms }
    ensures lone_target { (terms : List Term) → LoneTarget terms }
    ensures name_value_and_target { (terms : List Term) → NameValueAndTarget terms }
{}
