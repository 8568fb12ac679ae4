ghost use Rattle.std.specs.Prelude.{◌≡◌};
ghost use Rattle.box_trace.specs.Axes as axes;

/// An axis.
#[derive(Clone, Copy, Debug, PartialEq, Eq)]
pub enum Axis {
    X,
    Y,
    Z,
}

impl Axis {
    /// The axis by its number, as a [`Hit`](crate::Hit) has it: 0 for x, 1 for y and 2 for z.
    pub fn number(self) -> u8
        ensures { result ≡ axes.number_of self }
    {
        match self {
            Axis::X => 0,
            Axis::Y => 1,
            Axis::Z => 2,
        }
    }

    /// The axis with this number. `None` where there is none.
    pub fn with_number(number: u8) -> Option<Axis>
        ensures { result ≡ axes.axis_with number }
    {
        match number {
            0 => Some(Axis::X),
            1 => Some(Axis::Y),
            2 => Some(Axis::Z),
            _ => None,
        }
    }
}
