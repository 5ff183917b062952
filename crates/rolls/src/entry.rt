ghost use Rattle.std.specs.Prelude.{◌≡◌, ℕ};

// What has an owner: the number of a transaction.
pub trait Owned {
    ghost owned: { Self → ℕ };

    fn owner(&self) -> u32
        ensures { result ≡ owned self.now };
}
