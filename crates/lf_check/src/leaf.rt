//! Leaves.

ghost use Rattle.std.specs.Prelude.{◌≡◌, MatchOption};
ghost use Rattle.lf_check.specs.Nodes.{FirstOfLeaf, said_wrongly};
ghost use Rattle.lf_certificate.specs.Accepted.{IsRightLeaf};
ghost use Rattle.lf_sim.specs.Settings.{IsRun, set_of, world_of};

use crate::site::{Judged, Site};
use lf_certificate::Reason;
use lf_outcome::holds;
use lf_sim::Machine;

/// What is wrong first with a leaf where it stands, which says whether its set reaches the outcome. None where it is right.
pub(crate) fn leaf_fault<M: Machine>(
    judged: &Judged<'_, M>,
    site: &Site<'_, M>,
    says: bool,
) -> Option<Reason>
    requires { IsRun (world_of judged.now.setting.now) site.now.run.now }
    ensures { MatchOption result
        (IsRightLeaf (world_of judged.now.setting.now) judged.now.setting.now.spec judged.now.formula.now judged.now.last
        site.now.depth (set_of site.now.run.now) says)
        (FirstOfLeaf (world_of judged.now.setting.now) judged.now.formula.now judged.now.last site.now.depth
        (set_of site.now.run.now) says) }
{
    if site.depth != judged.last {
        return Some(Reason::WrongDepth);
    }
    said_wrongly(says, holds(judged.setting, judged.formula, site.run))
}

/// What is wrong with what a leaf says, by whether its set reaches the outcome.
fn said_wrongly(says: bool, reaches: bool) -> Option<Reason>
    ensures { result ≡ said_wrongly says reaches }
{
    if says {
        if reaches {
            return None;
        }
        return Some(Reason::SaidToReach);
    }
    if reaches {
        return Some(Reason::SaidToMiss);
    }
    None
}
