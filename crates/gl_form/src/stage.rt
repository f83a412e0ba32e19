ghost use Rattle.std.specs.Prelude.{MatchBool};
ghost use Rattle.gl_model.specs.Entries.{seen};
ghost use Rattle.gl_model.specs.Form.{IsBegin, IsEnd, IsOver, IsTrim};

use gl_model::{Act, Entry};

/// How far a list has come: it has no entry but Trims; it has begun; its last entry is End; or it has an Over.
#[derive(Clone, Copy)]
pub(crate) enum Stage {
    Fresh,
    Running,
    Ended,
    Over,
}

// Whether the entry is a Trim.
fn is_trim(entry: &Entry) -> bool
    ensures { MatchBool result (IsTrim (seen entry.now)) (IsTrim (seen entry.now) → ⊥) }
{
    matches!(entry, Entry::Trim { .. })
}

// Whether the entry is the first event of a thread.
fn is_begin(entry: &Entry) -> bool
    ensures { MatchBool result (IsBegin (seen entry.now)) (IsBegin (seen entry.now) → ⊥) }
{
    matches!(
        entry,
        Entry::Sync {
            act: Act::Begin(_),
            ..
        }
    )
}

// Whether the entry is the last event of a thread.
fn is_end(entry: &Entry) -> bool
    ensures { MatchBool result (IsEnd (seen entry.now)) (IsEnd (seen entry.now) → ⊥) }
{
    matches!(entry, Entry::Sync { act: Act::End, .. })
}

// Whether the entry is the end of a list.
fn is_over(entry: &Entry) -> bool
    ensures { MatchBool result (IsOver (seen entry.now)) (IsOver (seen entry.now) → ⊥) }
{
    matches!(entry, Entry::Over(_))
}

impl Stage {
    ghost use Rattle.gl_model.specs.Entries.{seen};
    ghost use Rattle.gl_form.specs.Passed.{Turns};

    /// The stage after the entry, if it may follow here.
    pub(crate) fn after(self, entry: &Entry) -> Option<Stage>
        ensures { Turns (seen entry.now) self result }
    {
        match self {
            Stage::Fresh if is_trim(entry) => Some(Stage::Fresh),
            Stage::Fresh if is_begin(entry) => Some(Stage::Running),
            Stage::Running if is_end(entry) => Some(Stage::Ended),
            Stage::Running if !is_over(entry) => Some(Stage::Running),
            Stage::Ended if is_over(entry) => Some(Stage::Over),
            Stage::Fresh | Stage::Running | Stage::Ended | Stage::Over => None,
        }
    }
}
