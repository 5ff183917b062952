// A form letter and two numbers: which codes they stand for is a kind's to say.
#[derive(Clone, Copy, PartialEq, Eq, Debug)]
pub struct Condition {
    pub form: u8,
    pub a: u32,
    pub b: u32,
}
