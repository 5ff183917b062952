ghost use Rattle.std.specs.Prelude.{◌≡◌, ◌≤◌, length, take, Decides, count_by, nat_eq};
ghost use Rattle.rolls.specs.Rolls.{Has, Pushed, without};

use crate::entry::Owned;

// The length of a roll, beside memory that is lent. Its entries are the first ones of the memory; what lies past them is open.
// The caller brings the memory to every call, so that it has room for the length stands in the calls' clauses, and in no type.
#[derive(Clone, Copy)]
pub struct Roll {
    len: usize,
}

// Every place of the memory is taken.
#[derive(Clone, Copy, PartialEq, Eq, Debug)]
pub struct Full;

impl Roll {
    pub fn new() -> Roll
        ensures { result.len ≡ 0 }
    {
        Roll { len: 0 }
    }

    // How many entries there are.
    pub fn len(&self) -> usize
        ensures { result ≡ self.now.len }
    {
        self.len
    }

    // The entries, in order of arrival.
    pub fn entries<'a, E>(&self, memory: &'a [E]) -> &'a [E]
        requires { self.now.len ≤ length memory.now }
        ensures { result.now ≡ take self.now.len memory.now }
    {
        &memory[0..self.len]
    }

    // One entry more, at the end; refused exactly when the memory is full.
    pub fn push<E: Copy>(&mut self, memory: &mut [E], e: E) -> Result<(), Full>
        requires { self.old.len ≤ length memory.old }
        ensures { Pushed self.old.len memory.old self.new.len memory.new e result }
    {
        if self.len >= memory.len() {
            return Err(Full);
        }
        memory[self.len] = e;
        self.len += 1;
        Ok(())
    }

    // Whether an entry has this owner.
    pub fn has<E: Owned>(&self, memory: &[E], owner: u32) -> bool
        requires { self.now.len ≤ length memory.now }
        ensures { Decides result (Has E.Owned.owned owner (take self.now.len memory.now)) }
    {
        self.entries(memory).iter().any(|e| e.owner() == owner)
    }

    // How many entries have this owner.
    pub fn count<E: Owned>(&self, memory: &[E], owner: u32) -> usize
        requires { self.now.len ≤ length memory.now }
        ensures { result ≡ count_by (λ e. nat_eq (E.Owned.owned e) owner) (take self.now.len memory.now) }
    {
        self.entries(memory)
            .iter()
            .filter(|e| e.owner() == owner)
            .count()
    }

    // All entries of an owner leave; the others keep their order.
    pub fn remove<E: Owned + Copy>(&mut self, memory: &mut [E], owner: u32)
        requires { self.old.len ≤ length memory.old }
        ensures shorter { self.new.len ≤ self.old.len }
        ensures kept { take self.new.len memory.new ≡ without E.Owned.owned owner (take self.old.len memory.old) }
    {
        let n = self.len;
        // by index, since the entries are read and written in one slice, which has no `retain`
        let mut k = 0;
        for i in 0..n {
            let e = memory[i];
            if e.owner() != owner {
                memory[k] = e;
                k += 1;
            }
        }
        self.len = k;
    }
}
