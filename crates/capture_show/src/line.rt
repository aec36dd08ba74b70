// A line before it is printed.
ghost use Rattle.std.specs.Prelude.{◌≡◌, ◌+◌, ◌≤◌, ◌++◌, [], ◌∷◌, length};
ghost use Rattle.capture_show.specs.Lines.{ShownLine, count, signed, flag, said};

use crate::values::{Field, Kind, Member, Name, Word};
use arrayvec::ArrayVec;
use std::marker::Model;

/// The most members of a line.
pub const MEMBERS: usize = 17;

/// A line: its first word, and at most [`MEMBERS`] members in their order. Contracts see it as a `ShownLine`.
#[derive(Drop)]
pub struct Shown {
    kind: Kind,
    members: ArrayVec<Member, MEMBERS>,
}

impl Model for Shown {
    ghost use Rattle.capture_show.specs.Lines.{ShownLine};

    ghost Value = { ShownLine };

    ghost view = { λ s. record { kind = s.kind; members = s.members.items } };
}

impl Shown {
    /// A line with these members.
    pub fn of(kind: Kind, members: &[Member]) -> Shown
        requires { length members.now ≤ MEMBERS }
        ensures { result ≡ record { kind = kind; members = members.now } }
    {
        let mut all = ArrayVec::new();
        let _ = all.try_extend_from_slice(members);
        Shown { kind, members: all }
    }

    /// Appends members.
    pub fn add(&mut self, members: &[Member])
        requires { length self.old.members + length members.now ≤ MEMBERS }
        ensures { self.new ≡ record { kind = self.old.kind; members = self.old.members ++ members.now } }
    {
        let _ = self.members.try_extend_from_slice(members);
    }

    /// Its first word.
    pub fn kind(&self) -> Kind
        ensures { result ≡ self.now.kind }
    {
        self.kind
    }

    /// Its members.
    pub fn members(&self) -> &[Member]
        ensures { result.now ≡ self.now.members }
    {
        self.members.as_slice()
    }
}

/// A member that is a number without sign.
pub fn count(name: Name, n: u64) -> Member
    ensures { result ≡ count name n }
{
    Member {
        name,
        field: Field::Count(n),
    }
}

/// A member that is a number with a sign.
pub fn signed(name: Name, n: i64) -> Member
    ensures { result ≡ signed name n }
{
    Member {
        name,
        field: Field::Signed(n),
    }
}

/// A member that is 1 or 0.
pub fn flag(name: Name, is_set: bool) -> Member
    ensures { result ≡ flag name is_set }
{
    count(name, u64::from(is_set))
}

/// A member that is a word.
pub fn said(name: Name, word: Word) -> Member
    ensures { result ≡ said name word }
{
    Member {
        name,
        field: Field::Word(word),
    }
}
