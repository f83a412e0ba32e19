// What the list's state says.
ghost use Rattle.std.specs.Prelude.{◌≡◌, ◌≢◌, ℕ, pos, ◌+◌, ◌*◌, ◌<◌, ◌≤◌, IfSome, None, true, false, slice_get, count_by};
ghost use Rattle.gl_model.specs.declared.limits.TheConstants.{THREADS, MONITORS, VOLATILES, CLASSES};
ghost use Rattle.gl_state.specs.declared.state.Stage.TheVariants as stage;
ghost use Rattle.gl_state.specs.Acts.{stage_of, word_in, is_live as lives, IsLeastNew, HasRoom, reference_in};
ghost use Rattle.gl_state.specs.Entering.{monitor_of};

use crate::state::{ListState, Stage};
use gl_model::Inputs;

const THREADS: u8 = 16;

const MONITORS: u16 = 256;

const VARIABLES: u16 = 1024;

const VOLATILES: u16 = 256;

fn is_live(stage: &Stage) -> bool
    ensures { result ≡ lives stage.now }
{
    match *stage {
        Stage::Never | Stage::Ended => false,
        Stage::Forked { .. } | Stage::Running => true,
    }
}

fn is_never(found: &Stage) -> bool
    ensures yes { result ≡ true → found.now ≡ stage.Never }
    ensures no { result ≡ false → found.now ≢ stage.Never }
{
    match *found {
        Stage::Never => true,
        Stage::Forked { .. } | Stage::Running | Stage::Ended => false,
    }
}

impl ListState {
    /// Who owns the monitor, and how often it was entered.
    pub fn owner(&self, monitor: u16) -> Option<(u8, u64)>
        requires there { monitor < MONITORS }
        ensures { result ≡ monitor_of self.now monitor }
    {
        self.monitors[monitor as usize]
    }

    /// The word of a volatile.
    pub fn word(&self, field: u16) -> i64
        requires there { field < VOLATILES }
        ensures { result ≡ word_in self.now field }
    {
        self.volatiles[field as usize]
    }

    /// What became of a thread.
    pub fn stage(&self, thread: u8) -> Stage
        requires there { thread < THREADS }
        ensures { result ≡ stage_of self.now thread }
    {
        self.threads[thread as usize]
    }

    /// How many threads were forked and have not ended.
    #[tactic(auto, using(crate::proofs::Counts::few_live))]
    pub fn live(&self) -> usize
        ensures count { result ≡ count_by lives self.now.threads }
        ensures within { result ≤ THREADS }
    {
        self.threads.iter().filter(|stage| is_live(stage)).count()
    }

    /// The least thread but 0 that was never forked. None comes exactly where the threads 1 to 15 were all forked.
    pub fn least_new(&self) -> Option<u8>
        ensures some { IfSome result (λ u. IsLeastNew self.now u) }
        ensures none { result ≡ None → (w : ℕ) → 0 < w → w < THREADS → stage_of self.now w ≢ stage.Never }
    {
        for u in 1..THREADS {
            if is_never(&self.threads[u as usize]) {
                return Some(u);
            }
        }
        None
    }

    /// The reference of the next object, which is of this class and has so many data fields and volatile fields. None comes exactly where
    /// it does not fit.
    pub fn next_object(&self, class: u16, fields: (u16, u16)) -> Option<i64>
        requires there { class < CLASSES }
        ensures some { IfSome result (λ r. HasRoom self.now fields × (r ≡ pos (reference_in self.now class))) }
        ensures none { result ≡ None → HasRoom self.now fields → ⊥ }
    {
        let variables = self.next_variable as u32 + fields.0 as u32;
        let volatiles = self.next_volatile as u32 + fields.1 as u32;
        if self.next_object >= MONITORS
            || variables > VARIABLES as u32
            || volatiles > VOLATILES as u32
        {
            return None;
        }
        let low = 1 + self.next_object as u64 + 256 * class as u64;
        Some(
            (low + 65536 * self.next_variable as u64
                + 4294967296 * self.next_volatile as u64) as i64,
        )
    }

    /// The next number of the inputs. None comes exactly where all were taken.
    pub fn next_input(&self, inputs: &Inputs) -> Option<i64>
        ensures { result ≡ slice_get inputs.now self.now.inputs_taken }
    {
        inputs.get(self.inputs_taken as usize)
    }
}
