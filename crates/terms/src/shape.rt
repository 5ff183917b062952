// Rows and patterns as two shapes of terms.
ghost use Rattle.std.specs.Prelude.{◌≡◌};
ghost use Rattle.terms.specs.Shapes.{limit as limit_of, variables as variables_of};

#[derive(Clone, Copy, PartialEq, Eq, Debug)]
pub enum Shape {
    Row,
    Pattern,
}

impl Shape {
    // How many cells there may be.
    pub fn limit(self) -> usize
        ensures { result ≡ limit_of self }
    {
        match self {
            Shape::Row => 12,
            Shape::Pattern => 24,
        }
    }

    // How many variables there are.
    pub fn variables(self) -> u32
        ensures { result ≡ variables_of self }
    {
        match self {
            Shape::Row => 0,
            Shape::Pattern => 8,
        }
    }
}
