ghost use Rattle.std.specs.Prelude.{◌≡◌};
ghost use Rattle.demo_lines.specs.Faults as faults;

use arena_map::MapFault;
use thiserror::Error;

/// Why a line is refused: the first that holds, in this order.
#[derive(Clone, Copy, Debug, PartialEq, Eq, Error)]
pub enum LineFault {
    /// It has more than 512 bytes.
    #[error("the line has more than 512 bytes")]
    Long,
    /// The input ends in it or before it, and it isn't `end`.
    #[error("the input ends before the recording does")]
    NoEnd,
    /// A byte isn't one of ASCII that is printed, nor a space.
    #[error("a byte is neither one that is printed nor a space")]
    Byte,
    /// Its first word is no word of a recording.
    #[error("the first word is unknown")]
    Word,
    /// It has too few or too many fields, or a field that isn't a number or the kind of an item.
    #[error("the fields are not those that the word wants")]
    Form,
    /// It isn't allowed at its place.
    #[error("the line is not allowed here")]
    NotAllowed,
    /// A number is out of its limit.
    #[error("a number is out of its limit")]
    Limit,
    /// It breaks this rule of the map.
    #[error("the line breaks a rule of the map: {0}")]
    Rule(MapFault),
    /// Its packet is neither `-` nor an even number, at least 2, of hexadecimal digits.
    #[error("the packet is not written in hexadecimal digits")]
    Packet,
    /// It is one frame too many, or one packet of a frame.
    #[error("there is one frame too many, or one packet of a frame")]
    Count,
}

impl LineFault {
    ghost use Rattle.demo_lines.specs.Faults as faults;

    /// The fault's number, 1 to 10.
    pub fn number(self) -> u8
        ensures { result ≡ faults.fault_number self }
    {
        match self {
            LineFault::Long => 1,
            LineFault::Byte => 2,
            LineFault::Word => 3,
            LineFault::Form => 4,
            LineFault::NotAllowed => 5,
            LineFault::Limit => 6,
            LineFault::Rule(_) => 7,
            LineFault::Packet => 8,
            LineFault::Count => 9,
            LineFault::NoEnd => 10,
        }
    }

    /// The number of the rule of the map that the line breaks, 1 to 8; 0 where it breaks none.
    pub fn rule(self) -> u8
        ensures { result ≡ faults.rule_number self }
    {
        match self {
            LineFault::Rule(rule) => rule.number(),
            _ => 0,
        }
    }
}
