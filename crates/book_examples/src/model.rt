//! What each event does to a search, said plainly: a list of all sets, each with its mark.

ghost use Rattle.lf_sim.specs.Settings.{IsRun, world_of};

use lf_book::{Counts, Deepened, Job, Reply, Taken};
use lf_cone::{edges, sharp};
use lf_faults::{Fault, FaultSet, FaultSpec};
use lf_outcome::{Formula, Scenario, evidence, holds};
use lf_protocols::{Fact, Protocol};
use lf_sim::{Run, Setting, run};
use std::alloc::{AllocError, Global};
use std::sync::Arc;

/// How a set is marked.
#[derive(Clone, Copy)]
enum Mark {
    Waiting,
    Open,
    Claimed(u64),
    Misses,
    Reaches,
}

impl Mark {
    /// Whether a set that is marked so is claimed by a ticket.
    fn is_claim_of(self, ticket: u64) -> bool {
        match self {
            Mark::Claimed(by) => by == ticket,
            _ => false,
        }
    }
}

/// Counts a set that is marked so.
fn count(counts: &mut Counts, mark: Mark) {
    match mark {
        Mark::Waiting => counts.waiting = counts.waiting.saturating_add(1),
        Mark::Open => counts.ready = counts.ready.saturating_add(1),
        Mark::Claimed(_) => counts.claimed = counts.claimed.saturating_add(1),
        Mark::Misses | Mark::Reaches => counts.answered = counts.answered.saturating_add(1),
    }
}

/// A set that is known.
#[derive(Drop)]
pub(crate) struct Known {
    path: Vec<usize>,
    faults: FaultSet,
    excluded: Vec<Fault>,
    mark: Mark,
}

impl Known {
    /// Whether a job is of this set.
    fn is_of(&self, job: &Job) -> bool {
        self.path.as_slice() == job.path()
            && self.faults == job.set()
            && self.excluded.as_slice() == job.excluded()
    }
}

/// A search: all sets that are known, the level, the next ticket, and whether it has ended.
#[derive(Drop)]
pub(crate) struct Model {
    pub(crate) sets: Vec<Known>,
    level: u32,
    pub(crate) next: u64,
    finished: bool,
}

/// The faults that are required beneath a run's set, which has so many. None where it misses.
fn required_of(
    alloc: Global,
    setting: &Setting<Protocol>,
    formula: &Formula<Fact>,
    played: &Run<Protocol>,
    size: usize,
    excluded: &[Fault],
) -> Result<Option<Vec<Fault>>, AllocError>
    requires { IsRun (world_of setting.now) played.now }
{
    if !holds(setting, formula, played) {
        return Ok(None);
    }
    if size >= setting.spec.budget() as usize {
        return Ok(Some(Vec::new(alloc)));
    }
    let Some(points) = evidence(alloc, setting, formula, played)? else {
        return Ok(None);
    };
    let reach = sharp(setting, played, points.as_slice());
    match edges(alloc, setting, played, &reach, excluded) {
        Ok(edges) => Ok(Some(edges)),
        Err(error) => Err(error),
    }
}

/// The faults that are required beneath a set. None where it misses.
fn required(
    alloc: Global,
    scenario: &Scenario,
    set: &FaultSet,
    excluded: &[Fault],
) -> Result<Option<Vec<Fault>>, AllocError> {
    let (setting, formula) = (scenario.setting(), scenario.formula());
    let played = run(alloc, setting, set)?;
    required_of(alloc, setting, formula, &played, set.len(), excluded)
}

/// The path of a set, with a change of it or none.
fn changed_path(alloc: Global, path: &[usize], change: u64) -> Result<Vec<usize>, AllocError> {
    if change == 2 {
        return Ok(Vec::new(alloc));
    }
    let mut changed = path.to_vec(alloc)?;
    if change == 1 {
        changed.push(0)?;
    }
    Ok(changed)
}

/// The exclusions of a set, with a change of them or none.
fn changed_exclusions(alloc: Global, known: &Known, change: u64) -> Result<Vec<Fault>, AllocError> {
    if change == 3 {
        return Ok(Vec::new(alloc));
    }
    let mut changed = known.excluded.as_slice().to_vec(alloc)?;
    if change == 4 {
        changed.extend_from_slice(known.faults.items())?;
    }
    Ok(changed)
}

/// A kid of a job's set, which waits, at its place among the edges. The edges before its own are excluded too.
fn kid(
    alloc: Global,
    job: &Job,
    place: usize,
    edge: &Fault,
    before: &[Fault],
) -> Result<Known, AllocError> {
    let mut path = job.path().to_vec(alloc)?;
    path.push(place)?;
    let mut excluded = job.excluded().to_vec(alloc)?;
    excluded.extend_from_slice(before)?;
    Ok(Known {
        path,
        faults: job.set().insert(*edge).unwrap_or(job.set()),
        excluded,
        mark: Mark::Waiting,
    })
}

impl Model {
    /// The empty set, open.
    pub(crate) fn begin(alloc: Global) -> Result<Model, AllocError> {
        let root = Known {
            path: Vec::new(alloc),
            faults: FaultSet::empty(),
            excluded: Vec::new(alloc),
            mark: Mark::Open,
        };
        let mut sets = Vec::new(alloc);
        sets.push(root)?;
        Ok(Model {
            sets,
            level: 0,
            next: 1,
            finished: false,
        })
    }

    /// A job of the set at a place among those that are known, by a ticket, with a change of its set, its path or its exclusions, or
    /// with none. None where there is no such place.
    pub(crate) fn job(
        &self,
        alloc: Global,
        scenario: &Arc<Scenario>,
        place: usize,
        ticket: u64,
        change: u64,
    ) -> Option<Job> {
        let known = self.sets.as_slice().get(place)?;
        let set = if change == 0 {
            FaultSet::empty()
        } else {
            known.faults
        };
        let Ok(path) = changed_path(alloc, known.path.as_slice(), change) else {
            return None;
        };
        let Ok(excluded) = changed_exclusions(alloc, known, change) else {
            return None;
        };
        match Arc::try_clone(scenario) {
            Ok(shared) => Some(Job::new(shared, set, excluded, path, ticket)),
            Err(_) => None,
        }
    }

    /// How many sets are marked in which way.
    pub(crate) fn counts(&self) -> Counts {
        let mut counts = Counts {
            ready: 0,
            claimed: 0,
            answered: 0,
            waiting: 0,
        };
        for set in self.sets.as_slice() {
            count(&mut counts, set.mark);
        }
        counts
    }

    /// What is replied where a take gives this. None where it may not. The set of a job is claimed then.
    pub(crate) fn take(&mut self, taken: &Taken) -> Option<Reply> {
        let counts = self.counts();
        let (is_right, reply) = match taken {
            Taken::Finished => (self.finished, Reply::Finished),
            Taken::Busy => (
                !self.finished && counts.ready == 0 && counts.claimed > 0,
                Reply::Busy,
            ),
            Taken::LevelDone => (
                !self.finished && counts.ready == 0 && counts.claimed == 0,
                Reply::LevelDone,
            ),
            Taken::Spent => (false, Reply::Spent),
            Taken::Job(job) => (
                !self.finished && job.ticket() == self.next && self.claims(job),
                Reply::Took(job.ticket()),
            ),
        };
        if is_right { Some(reply) } else { None }
    }

    /// Whether a job is of an open set, which is claimed then.
    fn claims(&mut self, job: &Job) -> bool {
        for set in self.sets.as_mut_slice() {
            if matches!(set.mark, Mark::Open) && set.is_of(job) {
                set.mark = Mark::Claimed(job.ticket());
                self.next = self.next.saturating_add(1);
                return true;
            }
        }
        false
    }

    /// The place of the set that a ticket claims.
    pub(crate) fn claimed_by(&self, ticket: u64) -> Option<usize> {
        for (place, set) in self.sets.as_slice().iter().enumerate() {
            if set.mark.is_claim_of(ticket) {
                return Some(place);
            }
        }
        None
    }

    /// The number by which a job or its finding is refused, of this scenario or another, or 0. Then its set is marked.
    fn marks(&mut self, job: &Job, is_same: bool, mark: Mark) -> u32 {
        let Some(place) = self.claimed_by(job.ticket()) else {
            return 1;
        };
        if !is_same {
            return 2;
        }
        let Some(set) = self.sets.as_mut_slice().get_mut(place) else {
            return 3;
        };
        if !set.is_of(job) {
            return 3;
        }
        set.mark = mark;
        0
    }

    /// The number by which a finding is refused, or 0. Then its set is answered, and its kids wait.
    pub(crate) fn file(
        &mut self,
        alloc: Global,
        scenario: &Scenario,
        job: &Job,
        is_same: bool,
    ) -> Result<u32, AllocError> {
        let Some(edges) = required(alloc, scenario, &job.set(), job.excluded())? else {
            return Ok(self.marks(job, is_same, Mark::Misses));
        };
        let refused = self.marks(job, is_same, Mark::Reaches);
        if refused == 0 {
            self.put_kids(alloc, job, edges.as_slice())?;
        }
        Ok(refused)
    }

    /// Puts the kids of a set, which wait. Beneath each the edges before its own are excluded.
    fn put_kids(&mut self, alloc: Global, job: &Job, edges: &[Fault]) -> Result<(), AllocError> {
        for (place, edge) in edges.iter().enumerate() {
            let before = edges.get(..place).unwrap_or(edges);
            self.sets.push(kid(alloc, job, place, edge, before)?)?;
        }
        Ok(())
    }

    /// Whether a job is taken back. Then its set is open.
    pub(crate) fn give_back(&mut self, job: &Job, is_same: bool) -> bool {
        self.marks(job, is_same, Mark::Open) == 0
    }

    /// Opens what is claimed.
    pub(crate) fn reclaim(&mut self) {
        for set in self.sets.as_mut_slice() {
            if matches!(set.mark, Mark::Claimed(_)) {
                set.mark = Mark::Open;
            }
        }
    }

    /// Whether an answered set misses.
    fn has_missing(&self) -> bool {
        for set in self.sets.as_slice() {
            if matches!(set.mark, Mark::Misses) {
                return true;
            }
        }
        false
    }

    /// The next level, or the end.
    pub(crate) fn deepen(&mut self, spec: &FaultSpec, most: u32) -> Deepened {
        let counts = self.counts();
        if counts.ready > 0 || counts.claimed > 0 {
            return Deepened::NotDone;
        }
        if self.has_missing() {
            self.finished = true;
            return Deepened::Answer;
        }
        if self.level == spec.budget() {
            self.finished = true;
            return Deepened::NoneWithin;
        }
        if counts.waiting > u64::from(most) {
            return Deepened::Full {
                count: counts.waiting,
            };
        }
        self.level = self.level.saturating_add(1);
        for set in self.sets.as_mut_slice() {
            if matches!(set.mark, Mark::Waiting) {
                set.mark = Mark::Open;
            }
        }
        Deepened::Down
    }
}
