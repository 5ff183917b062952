use kinds::condition::Condition;

// A condition on a variable.
#[derive(Clone, Copy, PartialEq, Eq, Debug)]
pub struct Constraint {
    pub variable: u32,
    pub condition: Condition,
}

// What stands where there is no constraint.
pub const NO_CONSTRAINT: Constraint = Constraint {
    variable: 0,
    condition: Condition {
        form: b' ',
        a: 0,
        b: 0,
    },
};
