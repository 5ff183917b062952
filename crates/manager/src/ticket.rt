// What a host gets for a transaction that it began.
ghost use Rattle.std.specs.Prelude.{◌≡◌, true};

// It is moved and never copied, and may be let go only when spent, so that a host ends what it began.
// The manager's roll keeps the plain number.
pub struct Ticket {
    pub(crate) number: u32,
    pub(crate) spent: bool,
}

impl Ticket {
    // The number of its transaction.
    pub fn number(&self) -> u32
        ensures { result ≡ self.now.number }
    {
        self.number
    }
}

impl Drop for Ticket {
    fn drop(self)
        requires { self.spent ≡ true }
    {
        let Ticket {
            number: _,
            spent: _,
        } = self;
    }
}
