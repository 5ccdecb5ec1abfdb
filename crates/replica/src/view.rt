//! Views: what a replica is allowed in its mode, and how it goes from view to view.
ghost use Rattle.std.specs.Prelude.{◌≡◌, Ok};
ghost use Rattle.replica.specs.Modes.{mode_of, in_mode};
ghost use Rattle.replica.specs.Replicas.{initial, reach, left, started, entered};

use crate::word::one_past;
use crate::{Activity, Mode, Replica};
use refusal::{Ground, Refusal};

impl Replica {
    /// A replica as a bench opens with it: every number is 0, and the mark is clear.
    pub fn new() -> Replica
        ensures { result ≡ initial }
    {
        Replica::default()
    }

    /// Whether it takes part in its view.
    pub fn mode(&self) -> Mode
        ensures { result ≡ mode_of self.now }
    {
        if self.view < self.target {
            Mode::Leaving
        } else {
            Mode::AtWork
        }
    }

    /// Whether its mode allows the activity: if not, it is refused on ground 9.
    pub fn admits(&self, activity: Activity) -> Result<(), Refusal>
        ensures { result ≡ in_mode self.now activity (Ok tt) }
    {
        // A replica matches its mode together with the activity.
        match (self.mode(), activity) {
            (Mode::AtWork, Activity::Work | Activity::Leave | Activity::Enter) => Ok(()),
            (Mode::Leaving, Activity::Leave | Activity::Start | Activity::Enter) => Ok(()),
            _ => Err(Ground::Mode.into()),
        }
    }

    /// The length of its line, or one past its highest sealed no-op where that is more.
    pub fn reach(&self) -> u8
        ensures { result ≡ reach self.now }
    {
        self.length.max(one_past(self.sealed))
    }

    /// Leaves for the view `target`, with the mark cleared.
    pub fn leave(&mut self, target: u8)
        ensures { self.new ≡ left self.old target }
    {
        self.target = target;
        self.mark = false;
    }

    /// Sets the mark: it said ENTRY for its target.
    pub fn start(&mut self)
        ensures { self.new ≡ started self.old }
    {
        self.mark = true;
    }

    /// Enters a view with a line, its length and its word, and with nothing sealed there.
    pub fn enter(&mut self, view: u8, line: (u8, u64))
        ensures { self.new ≡ entered view line.0 line.1 }
    {
        let (length, word) = line;
        *self = Replica {
            view,
            target: view,
            base: length,
            length,
            word,
            ..Replica::new()
        };
    }
}
