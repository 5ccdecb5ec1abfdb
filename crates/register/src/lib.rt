//! What it is to be a register: to have members, which are statements, and places that are free.
//! How statements are stored is each register's own.
#![tactic(auto)]

ghost use Rattle.std.specs.Prelude.{◌≡◌, ℕ, Bool, true};
ghost use Rattle.std.specs.List.{fold};
ghost use Rattle.record.specs.Layout.{keeps_layout};
ghost use Rattle.record.specs.declared.Record.{Record};
ghost use Rattle.register.specs.Sets.{Emptiness, EnteredInto, addition};

mod inserting;

pub use inserting::insert;
use record::Record;
use refusal::Refusal;

/// A register. Its meaning is the set of statements that it holds, `held`, and the number of its
/// free places, `free`. Besides, it has a `memory`, which each register chooses: where the
/// statements stand, in what is lent to it.
pub trait Register {
    // Set and places are two members: most contracts above name one of them alone.
    ghost held: { Self → Record → Bool };

    ghost free: { Self → ℕ };

    // The memories that registers of this type can have.
    ghost Memory: { Type 0 };

    // The memory that a register has.
    ghost memory: { Self → Memory };

    // What a statement that is added makes of the memory.
    ghost stores: { Memory → Record → Memory };

    /// Whether `r` is a member. A record that breaks the layout never is.
    fn ask(&self, r: &Record) -> bool
        ensures member { result ≡ held self.now r.now }
        ensures statement { result ≡ true → keeps_layout r.now ≡ true };

    /// Whether there is no member.
    fn is_empty(&self) -> bool
        ensures { Emptiness (held self.now) result };

    /// Enters `r`. A record that breaks the layout is refused on ground 2. A member is granted.
    /// Another statement is added and uses one free place, or, if there is none, it is refused on
    /// ground 18. Where nothing is added, set, free places and memory stay.
    fn enter(&mut self, r: &Record) -> Result<(), Refusal>
        ensures entered { EnteredInto (held self.old) (free self.old) r.now result
            (held self.new) (free self.new) }
        ensures memory { let added = addition (held self.old) (free self.old) r.now in
            memory self.new ≡ fold stores (memory self.old) added };
}
