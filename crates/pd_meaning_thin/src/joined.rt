//! Mappings that follow each other, as one run (`thin_dump`, `thin_repair`).

ghost use Rattle.std.specs.Prelude.{◌+◌, ◌^◌, ◌<◌};

use pd_value::BlockTime;

/// Mappings of a thin device that follow each other: of virtual blocks to data blocks, at one time.
#[derive(Clone, Copy, Debug, PartialEq, Eq)]
pub struct Run {
    /// The first virtual block.
    pub virt: u64,
    /// The data block that the first virtual block is mapped to.
    pub target: u64,
    /// How many blocks are mapped, at least 1. The number stays at 2^64 - 1 where it would pass it.
    pub length: u64,
    /// The pool's time when they were mapped, below 2^24.
    pub time: u32,
}

/// A run that may still become longer.
#[derive(Clone, Copy)]
pub(crate) struct OpenRun {
    pub(crate) virt: u64,
    pub(crate) target: u64,
    /// How many mappings follow the first one.
    pub(crate) more: u64,
    pub(crate) time: u32,
    ghost fits: { virt + more < 2 ^ 64 },
}

impl OpenRun {
    ghost use Rattle.std.specs.Prelude.{◌≡◌};
    ghost use Rattle.pd_meaning_thin.specs.Runs.{first_of, given_run, is_followed_by};

    /// The run of one mapping.
    fn of(virt: u64, mapping: BlockTime) -> OpenRun
        ensures virt { result.virt ≡ virt }
        ensures target { result.target ≡ mapping.block }
        ensures more { result.more ≡ 0 }
        ensures time { result.time ≡ mapping.time }
    {
        OpenRun {
            virt,
            target: mapping.block,
            more: 0,
            time: mapping.time,
        }
    }

    /// Whether the mapping follows the run's last one.
    fn is_followed_by(&self, virt: u64, mapping: BlockTime) -> bool
        ensures { result ≡ is_followed_by self.now virt mapping }
    {
        let next_virtual = virt > self.virt && virt - self.virt - 1 == self.more;
        let next_data = mapping.block > self.target && mapping.block - self.target - 1 == self.more;
        let same_time = mapping.time == self.time;
        next_virtual & next_data & same_time
    }

    /// Whether the first mapping of another run follows the run's last one.
    fn continues_in(&self, later: &OpenRun) -> bool
        ensures { result ≡ is_followed_by self.now later.now.virt (first_of later.now) }
    {
        let first = BlockTime {
            block: later.target,
            time: later.time,
        };
        self.is_followed_by(later.virt, first)
    }

    /// The run as it is.
    fn run(&self) -> Run
        ensures { result ≡ given_run self.now }
    {
        Run {
            virt: self.virt,
            target: self.target,
            length: self.more.saturating_add(1),
            time: self.time,
        }
    }
}

/// The mappings that were taken since the last run was given: a run that may still become longer, or none.
///
/// It is for a caller who has mappings from elsewhere, by ascending virtual block; `MapRuns` joins those of a device.
#[derive(Clone, Copy)]
pub struct Joined {
    pub(crate) begun: Option<OpenRun>,
}

impl Joined {
    ghost use Rattle.std.specs.Prelude.{◌≡◌, [], ◌∷◌, ◌++◌, List, IfSome};
    ghost use Rattle.pd_kinds.specs.Meaning.{Mapping};
    ghost use Rattle.pd_meaning_thin.specs.Runs.{begun_mappings, begun_number, given_runs, IsGiven, mapping_of};

    /// No mapping.
    pub fn new() -> Joined
        ensures { result.begun ≡ None }
    {
        Joined { begun: None }
    }

    /// One mapping.
    pub fn of(virt: u64, mapping: BlockTime) -> Joined
        ensures { begun_mappings result.begun ≡ mapping_of (virt, mapping) ∷ [] }
    {
        Joined {
            begun: Some(OpenRun::of(virt, mapping)),
        }
    }

    /// Takes the next mapping, and gives the run before it where the mapping doesn't follow that.
    pub fn take(&mut self, virt: u64, mapping: BlockTime) -> Option<Run>
        ensures { (rest : List Mapping) → IsGiven result (given_runs (begun_mappings self.old.begun ++ (mapping_of (virt, mapping) ∷ rest)))
            (given_runs (begun_mappings self.new.begun ++ rest)) }
    {
        match self.begun {
            Some(mut begun) => {
                if begun.is_followed_by(virt, mapping) {
                    begun.more = virt - begun.virt;
                    self.begun = Some(begun);
                    None
                } else {
                    self.begun = Some(OpenRun::of(virt, mapping));
                    Some(begun.run())
                }
            }
            None => {
                self.begun = Some(OpenRun::of(virt, mapping));
                None
            }
        }
    }

    /// Takes the mappings that another one has since its last run, and gives the run before them where they don't follow that.
    pub fn append(&mut self, later: Joined) -> Option<Run>
        ensures given { (rest : List Mapping)
            → IsGiven result (given_runs (begun_mappings self.old.begun ++ (begun_mappings later.begun ++ rest)))
            (given_runs (begun_mappings self.new.begun ++ rest)) }
        ensures ended { IfSome result (λ run. given_runs (begun_mappings self.old.begun) ≡ run ∷ []) }
    {
        let Some(next) = later.begun else {
            return None;
        };
        match self.begun {
            Some(mut begun) => {
                if begun.continues_in(&next) {
                    begun.more = next.virt - begun.virt + next.more;
                    self.begun = Some(begun);
                    None
                } else {
                    self.begun = later.begun;
                    Some(begun.run())
                }
            }
            None => {
                self.begun = later.begun;
                None
            }
        }
    }

    /// Gives the last run, if there is any; then none is begun.
    pub fn end(&mut self) -> Option<Run>
        ensures given { IsGiven result (given_runs (begun_mappings self.old.begun)) [] }
        ensures none_left { self.new.begun ≡ None }
        ensures number { IfSome result (λ _. begun_number self.old.begun ≡ 1) }
    {
        match self.begun {
            Some(begun) => {
                self.begun = None;
                Some(begun.run())
            }
            None => None,
        }
    }
}
