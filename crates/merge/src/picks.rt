//! Picks by themselves: what is asked of them that no register is asked about.
ghost use Rattle.std.specs.Prelude.{◌≡◌, Bool, List, take};
ghost use Rattle.record.specs.Layout.{keeps_layout};
ghost use Rattle.record.specs.declared.Record.{Record};
ghost use Rattle.merge.specs.Merges.{top};
ghost use Rattle.merge.specs.Checks.{first_fault, Computes, layout_grounds, signs};

use record::Record;
use refusal::{Ground, Refusal};

// Refuses the first pick that fails the test, at its place, which is its index in the slice. The
// test sees the picks before it too.
pub(crate) fn first_fault<F: Fn(&[Record], &Record) -> bool>(
    picks: &[Record],
    why: Ground,
    passes: F,
) -> Result<(), Refusal>
    requires { F.IsAlwaysCallable passes }
    ensures { (t : List Record → Record → Bool) → Computes (F.post passes) t
        → result ≡ first_fault why (λ k p. t (take k picks.now) p) 0 picks.now }
{
    for (place, pick) in picks.iter().enumerate() {
        if !passes(&picks[..place], pick) {
            return Err(why.at(place as u64));
        }
    }
    Ok(())
}

/// Refuses the first pick that breaks the layout, at its place.
pub fn check_layout(picks: &[Record]) -> Result<(), Refusal>
    ensures { result ≡ layout_grounds picks.now }
{
    first_fault(
        picks,
        Ground::Layout,
        |_, pick|
            ensures { result ≡ keeps_layout pick.now }
        { pick.keeps_layout() },
    )
}

/// The greatest of the views that the picks' signers left; 0 where there is no pick.
#[tactic(auto, using(crate::proofs::Joins::top_fold))]
pub fn top(picks: &[Record]) -> u8
    ensures { result ≡ top picks.now }
{
    picks.iter().fold(0, |top, pick| top.max(pick.last))
}

// Whether `signer` signs one of the picks.
pub(crate) fn signs(picks: &[Record], signer: u8) -> bool
    ensures { result ≡ signs picks.now signer }
{
    picks.iter().any(|pick| pick.signer == signer)
}
