ghost use Rattle.std.specs.Prelude.{◌≡◌, ◌↔◌, ◌⊎◌, ℕ, ◌+◌, ◌*◌, ◌<◌, IsTrue, Some, None};
ghost use Rattle.gl_model.specs.Elements.{HasBit, IsElement, IsEventInRange, place};
ghost use Rattle.gl_model.specs.declared.event.Element.{Element as AnElement};

use crate::event::{Act, Element, Event, Stamp};
use crate::limits::{MONITORS, THREADS, VARIABLES, VOLATILES};
use crate::var_set::VarSet;

// How many elements there are, and the words with a bit for each.
const ELEMENTS: usize = THREADS as usize
    + 1
    + MONITORS as usize
    + VOLATILES as usize
    + VARIABLES as usize;

const WORDS: usize = (ELEMENTS + 63) / 64;

/// A set of elements.
#[derive(Clone, Copy)]
pub struct Lockset {
    words: [u64; WORDS],
}

fn has_bit(words: &[u64; WORDS], k: usize) -> bool
    requires { k < 64 * WORDS }
    ensures { IsTrue result ↔ HasBit words.now k }
{
    words[k / 64] >> (k % 64) & 1 == 1
}

fn add_bit(words: &mut [u64; WORDS], k: usize)
    requires { k < 64 * WORDS }
    ensures { (j : ℕ) → HasBit words.new j ↔ ((j ≡ k) ⊎ HasBit words.old j) }
{
    words[k / 64] |= 1 << (k % 64);
}

fn place_of(e: Element) -> usize
    requires { IsElement e }
    ensures place { result ≡ place e }
    ensures within { result < 64 * WORDS }
{
    match e {
        Element::Thread(t) => t as usize,
        Element::Tx => THREADS as usize,
        Element::Monitor(o) => THREADS as usize + 1 + o as usize,
        Element::Volatile(v) => THREADS as usize + 1 + MONITORS as usize + v as usize,
        Element::Var(x) => THREADS as usize
            + 1
            + MONITORS as usize
            + VOLATILES as usize
            + x as usize,
    }
}

impl Lockset {
    ghost use Rattle.gl_model.specs.Lockset.{Has};
    ghost use Rattle.gl_model.specs.Locksets.{Acquires, Releases, After, AfterAcquiring, InitialLockset, IsVarOf};

    fn empty() -> Lockset
        ensures { (y : AnElement) → Has result y → ⊥ }
    {
        Lockset { words: [0; WORDS] }
    }

    /// Whether the element is in the set.
    pub fn has(&self, e: Element) -> bool
        requires { IsElement e }
        ensures { IsTrue result ↔ Has self.now e }
    {
        has_bit(&self.words, place_of(e))
    }

    fn add(&mut self, e: Element)
        requires { IsElement e }
        ensures { (y : AnElement) → Has self.new y ↔ ((y ≡ e) ⊎ Has self.old y) }
    {
        add_bit(&mut self.words, place_of(e));
    }

    fn add_variables(&mut self, variables: &VarSet)
        ensures { (y : AnElement) → Has self.new y ↔ (IsVarOf variables.now y ⊎ Has self.old y) }
    {
        for x in variables.ids() {
            self.add(Element::Var(*x));
        }
    }

    fn has_some_variable(&self, variables: &VarSet) -> bool
        ensures { IsTrue result ↔ ((y : AnElement) × IsVarOf variables.now y × Has self.now y) }
    {
        for x in variables.ids() {
            if self.has(Element::Var(*x)) {
                return true;
            }
        }
        false
    }

    /// What a plain access of the thread starts with.
    pub fn start_plain(t: u8) -> Lockset
        requires { t < THREADS }
        ensures { (y : AnElement) → Has result y ↔ InitialLockset t None y }
    {
        let mut set = Lockset::empty();
        set.add(Element::Thread(t));
        set
    }

    /// What a commit of the thread on these variables starts with.
    pub fn start_commit(t: u8, variables: &VarSet) -> Lockset
        requires { t < THREADS }
        ensures { (y : AnElement) → Has result y ↔ InitialLockset t (Some variables.now) y }
    {
        let mut set = Lockset::empty();
        set.add(Element::Thread(t));
        set.add(Element::Tx);
        set.add_variables(variables);
        set
    }

    fn takes(&self, event: &Event) -> bool
        requires { IsEventInRange event.now }
        ensures { IsTrue result ↔ ((y : AnElement) × Acquires event.now y × Has self.now y) }
    {
        match event {
            Event::Act(Act::Acq(o)) => self.has(Element::Monitor(*o)),
            Event::Act(Act::VRead(v)) => self.has(Element::Volatile(*v)),
            Event::Act(Act::Join(u)) => self.has(Element::Thread(*u)),
            Event::Act(_) => false,
            Event::Commit(variables) => self.has_some_variable(variables),
        }
    }

    fn hand_on(&mut self, event: &Event)
        requires { IsEventInRange event.now }
        ensures { (y : AnElement) → Has self.new y ↔ (Releases event.now y ⊎ Has self.old y) }
    {
        match event {
            Event::Act(Act::Rel(o)) => self.add(Element::Monitor(*o)),
            Event::Act(Act::VWrite(v)) => self.add(Element::Volatile(*v)),
            Event::Act(Act::Fork { child, .. }) => self.add(Element::Thread(*child)),
            Event::Act(_) => {}
            Event::Commit(variables) => self.add_variables(variables),
        }
    }

    /// The first half of the event's rule.
    pub fn take(&mut self, stamp: &Stamp)
        requires thread { stamp.now.thread < THREADS }
        requires event { IsEventInRange stamp.now.event }
        ensures { (y : AnElement) → Has self.new y ↔ AfterAcquiring (Has self.old) stamp.now y }
    {
        if self.takes(&stamp.event) {
            self.add(Element::Thread(stamp.thread));
        }
    }

    /// What the event does to the set.
    pub fn step(&mut self, stamp: &Stamp)
        requires thread { stamp.now.thread < THREADS }
        requires event { IsEventInRange stamp.now.event }
        ensures { (y : AnElement) → Has self.new y ↔ After (Has self.old) stamp.now y }
    {
        self.take(stamp);
        if self.has(Element::Thread(stamp.thread)) {
            self.hand_on(&stamp.event);
        }
    }
}
