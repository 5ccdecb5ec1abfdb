//! A view change: checking its picks over a register, and merging them.
ghost use Rattle.std.specs.Prelude.{◌≡◌, Ok, true, is_ok};
ghost use Rattle.refusal.specs.Grounds.{and_then};
ghost use Rattle.merge.specs.Merges.{merge};
ghost use Rattle.merge.specs.Checks.{fits, pick_grounds, merge_grounds, Checked};

use crate::backing::check_backing;
use crate::base::check_base;
use crate::line::merge;
use crate::picks::{first_fault, signs, top};
use quorum::Membership;
use record::{Kind, Record};
use refusal::{Ground, Refusal};
use register::Register;

/// What a view change is about, beside its picks and their base.
#[derive(Clone, Copy, PartialEq, Eq, Debug)]
pub struct ViewChange {
    /// The replicas, a quorum of which sign the picks.
    pub members: Membership,
    /// How many slots are stamped.
    pub stamped: u8,
    /// The view that it leads to.
    pub target: u8,
}

impl ViewChange {
    // Whether a pick fits after those before it: it is a VIEW-CHANGE for the target by a replica
    // that signs none of them, and, if its last is `top`, its reach is at most the stamped slots.
    fn fits(self, top: u8, before: &[Record], pick: &Record) -> bool
        ensures { result ≡ fits self top before.now pick.now }
    {
        pick.kind == u8::from(Kind::ViewChange)
            && pick.signer < self.members.replicas
            && !signs(before, pick.signer)
            && pick.view == self.target
            && (pick.last != top || pick.slot <= self.stamped)
    }

    // Refuses unless there is a quorum of picks; then refuses the first that does not fit, at its
    // place.
    fn check_picks(self, picks: &[Record]) -> Result<(), Refusal>
        ensures { result ≡ pick_grounds self picks.now }
    {
        if picks.len() != usize::from(self.members.quorum) {
            return Err(Ground::Picks.into());
        }
        let top = top(picks);
        first_fault(
            picks,
            Ground::Picks,
            |before, pick| self.fits(top, before, pick),
        )
    }

    // Tries the grounds against a merge, in the order of their numbers.
    fn check<R: Register>(
        self,
        register: &R,
        picks: &[Record],
        base: (u8, u64),
    ) -> Result<(), Refusal>
        ensures grounds { result ≡ merge_grounds (R.held register.now) self picks.now base }
        ensures meaning { is_ok result ≡ true →
            Checked (R.held register.now) self picks.now base }
    {
        self.check_picks(picks)?;
        let top = top(picks);
        check_base(register, self.members, top, base)?;
        check_backing(register, self.members, top, picks)
    }

    /// The line that the picks merge to over the base. Refused unless the picks are good, the base
    /// is certified and the register has the statements that are needed.
    pub fn merging<R: Register>(
        self,
        register: &R,
        picks: &[Record],
        base: (u8, u64),
    ) -> Result<(u8, u64), Refusal>
        ensures answer { let grounds = merge_grounds (R.held register.now) self picks.now base in
            result ≡ and_then grounds (Ok (merge base picks.now)) }
        ensures meaning { is_ok result ≡ true →
            Checked (R.held register.now) self picks.now base }
    {
        self.check(register, picks, base)?;
        Ok(merge(picks, base))
    }
}
