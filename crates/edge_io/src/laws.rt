ghost use Rattle.edge_io.specs.Laws.{LimitsAreKnown, NaturalIsDecimal, IntegerIsDecimal, IntegersHaveForm};

/// A line buffer has room for 16,500 bytes, and the longest line of input has 512, its line feed not counted.
pub fn limits_are_known()
    ensures { LimitsAreKnown }
{}

/// A field is read as a number of at most a limit exactly where it is that number in decimal, without a leading zero.
pub fn natural_is_decimal()
    ensures { NaturalIsDecimal }
{}

/// A field is read as a number of at most a limit from 0 exactly where it is that number in decimal, with a minus in
/// front where it is below 0.
pub fn integer_is_decimal()
    ensures { IntegerIsDecimal }
{}

/// A field has the form of a number exactly where it is read as one within some limit.
pub fn integers_have_form()
    ensures { IntegersHaveForm }
{}
