ghost use Rattle.std.specs.Prelude.{◌≡◌};
ghost use Rattle.thread_base.specs.Maps.{put};
ghost use Rattle.kernel_state.specs.Records.{activities_of, no_activity};

use posix_model::Wait;
use thread_base::Tid;

/// What is kept of a thread beside its row and its context: its wait, and in its exit the value.
#[derive(Clone, Copy, Debug, PartialEq, Eq)]
pub struct Activity {
    pub wait: Option<Wait>,
    pub leaving: Option<u32>,
}

/// Neither a wait nor an exit.
const NO_ACTIVITY: Activity = Activity {
    wait: None,
    leaving: None,
};

/// What each thread's number does.
#[derive(Debug, Drop)]
pub struct Activities {
    activities: [Activity; 64],
}

#[tactic(auto, unfolding(crate::specs::Records::activities_of), using(thread_base::proofs::MapLemmas::numbered_set, thread_base::proofs::MapLemmas::numbered_get, thread_base::proofs::MapLemmas::numbered_blank))]
impl Activities {
    /// No thread waits or is in its exit.
    pub fn new() -> Activities
        ensures { activities_of result ≡ (λ t. no_activity) }
    {
        Activities {
            activities: [NO_ACTIVITY; 64],
        }
    }

    /// What a thread does.
    pub fn activity(&self, t: Tid) -> Activity
        ensures { result ≡ activities_of self.now t }
    {
        self.activities[t.index()]
    }

    /// Changes what a thread does; the others do what they did.
    pub fn put(&mut self, t: Tid, activity: Activity)
        ensures { activities_of self.new ≡ put (activities_of self.old) t activity }
    {
        self.activities[t.index()] = activity;
    }
}
