// The rule of the table, and what its steps tell.
use crate::layout::Layout;
use atomic_table::{Join, Play, Split, TableRule};
use gl_rule::{Know, Slot};
use std::marker::{Brand, PhantomData};

pub struct Order;

impl TableRule<Slot, Know, Layout> for Order {
    ghost use Rattle.gl_rule.specs.Rule.{Rule};
    ghost use Rattle.gl_table.specs.KeyOf.{key_of};
    ghost use Rattle.gl_rule.specs.View.{blank};
    ghost use Rattle.gl_rule.specs.Opened.{empty_shelves};

    ghost holds = { λ k. Rule (key_of k) };

    ghost first = { λ _. blank empty_shelves };
}

/// What a call says of its step: its view, with all that it has stored recorded, and what it does.
pub trait Told {
    ghost use Rattle.std.specs.Prelude.{ℕ, ℤ, Bool, Option};
    ghost use Rattle.gl_model.specs.Machine.{Setting};
    ghost use Rattle.gl_model.specs.declared.tx.Tx.{Tx};
    ghost use Rattle.gl_rule.specs.View.{View, Held};
    ghost use Rattle.gl_table.specs.Says.{EventSaid, MarkSaid};
    ghost use Rattle.gl_rule.specs.Objects.{Key};

    ghost view: { View };

    ghost setting: { Setting };

    ghost key: { Key };

    ghost object: { ℕ };

    // whether the list's state that is put back is quiet
    ghost quiet: { Bool };

    ghost held: { Held };

    ghost event: { EventSaid };

    ghost mark: { MarkSaid };

    // the word of a look
    ghost look: { Option ℤ };

    ghost tx: { Tx };

    // of a word of a cell, which one
    ghost index: { ℕ };
}

impl Told for Brand {
    ghost use Rattle.std.specs.Prelude.{[], false, None};
    ghost use Rattle.gl_model.specs.Machine.{trace_setting};
    ghost use Rattle.gl_rule.specs.View.{blank};
    ghost use Rattle.gl_table.specs.Says.{no_event, no_key, no_mark, no_held, no_tx};

    ghost view = { blank [] };

    ghost setting = { trace_setting };

    ghost key = { no_key };

    ghost object = { 0 };

    ghost quiet = { false };

    ghost held = { no_held };

    ghost event = { no_event };

    ghost mark = { no_mark };

    ghost look = { None };

    ghost tx = { no_tx };

    ghost index = { 0 };
}

pub struct Takes<B>(PhantomData<B>);

impl<B: Told> Play<Slot, Know> for Takes<B> {
    ghost use Rattle.gl_rule.specs.Told.{Took};

    ghost then = { λ s v n w. Took B.setting B.object B.view v.1 n w };
}

pub struct Leaves<B>(PhantomData<B>);

impl<B: Told> Play<Slot, Know> for Leaves<B> {
    ghost use Rattle.gl_rule.specs.Told.{Left};

    ghost then = { λ s v n w. Left B.object B.quiet B.view v.1 w };
}

pub struct SeesTail<B>(PhantomData<B>);

impl<B: Told> Play<Slot, Know> for SeesTail<B> {
    ghost use Rattle.gl_rule.specs.Told.{SawTail};

    ghost then = { λ s v n w. SawTail B.view v.1 n w };
}

pub struct SeesHold<B>(PhantomData<B>);

impl<B: Told> Play<Slot, Know> for SeesHold<B> {
    ghost use Rattle.gl_rule.specs.Told.{SawHold};

    ghost then = { λ s v n w. SawHold B.object B.view v.1 n w };
}

pub struct Puts<B>(PhantomData<B>);

impl<B: Told> Play<Slot, Know> for Puts<B> {
    ghost use Rattle.gl_rule.specs.Told.{PutWord};

    ghost then = { λ s v n w. PutWord n B.view v.1 w };
}

pub struct Publishes<B>(PhantomData<B>);

impl<B: Told> Play<Slot, Know> for Publishes<B> {
    ghost use Rattle.gl_rule.specs.Told.{PublishedAct};

    ghost then = { λ s v n w. PublishedAct B.event.shelf B.event.act B.event.value B.event.state B.view v.1 n w };
}

pub struct Marks<B>(PhantomData<B>);

impl<B: Told> Play<Slot, Know> for Marks<B> {
    ghost use Rattle.gl_rule.specs.Told.{Marked};

    ghost then = { λ s v n w. Marked B.mark.shelf B.held B.object B.mark.block B.mark.write B.mark.value B.mark.raised B.view v.1 n w };
}

pub struct SeesFloor<B>(PhantomData<B>);

impl<B: Told> Play<Slot, Know> for SeesFloor<B> {
    ghost use Rattle.gl_rule.specs.Told.{SawFloor};

    ghost then = { λ s v n w. SawFloor B.held B.view v.1 n w };
}

pub struct Raises<B>(PhantomData<B>);

impl<B: Told> Play<Slot, Know> for Raises<B> {
    ghost use Rattle.gl_rule.specs.Told.{Raised};

    ghost then = { λ s v n w. Raised B.held B.event.state n B.view v.1 w };
}

pub struct Lowers<B>(PhantomData<B>);

impl<B: Told> Play<Slot, Know> for Lowers<B> {
    ghost use Rattle.gl_rule.specs.Told.{Lowered};

    ghost then = { λ s v n w. Lowered B.event.shelf B.object B.view v.1 n w };
}

pub struct Enters;

impl Play<Slot, Know> for Enters {
    ghost use Rattle.std.specs.Prelude.{◌≡◌, []};
    ghost use Rattle.gl_rule.specs.View.{blank};

    ghost then = { λ s v n w. w ≡ (blank [], []) };
}

// The seat of the next thread is cut off.
pub struct Cut;

impl Split<Know> for Cut {
    ghost use Rattle.gl_table.specs.Beginning.{rest_of, first_of};

    ghost left = { rest_of };

    ghost right = { first_of };
}

// A seat takes in another's lists.
pub struct Glue;

impl Join<Know> for Glue {
    ghost use Rattle.std.specs.Prelude.{[]};
    ghost use Rattle.gl_rule.specs.View.{both, blank};

    ghost both = { both };

    ghost spent = { blank [] };
}

// What is known of the record, once one seat has all lists.
pub struct Closes<B>(PhantomData<B>);

impl<B: Told> Play<Slot, Know> for Closes<B> {
    ghost use Rattle.gl_table.specs.Ending.{ClosedTold};

    ghost then = { λ s v n w. ClosedTold B.key B.view w };
}

pub struct Stops<B>(PhantomData<B>);

impl<B: Told> Play<Slot, Know> for Stops<B> {
    ghost use Rattle.gl_rule.specs.Told.{Saw};
    ghost use Rattle.gl_rule.specs.View.{SetStop};

    ghost then = { λ s v n w. Saw SetStop B.view v.1 w };
}

pub struct SeesStop<B>(PhantomData<B>);

impl<B: Told> Play<Slot, Know> for SeesStop<B> {
    ghost use Rattle.gl_rule.specs.Told.{SawStop};

    ghost then = { λ s v n w. SawStop B.view v.1 n w };
}

pub struct Opens<B>(PhantomData<B>);

impl<B: Told> Play<Slot, Know> for Opens<B> {
    ghost use Rattle.gl_rule.specs.Told.{Opened};

    ghost then = { λ s v n w. Opened B.mark.shelf B.held B.object B.mark.block B.look B.view v.1 n w };
}

pub struct Pays<B>(PhantomData<B>);

impl<B: Told> Play<Slot, Know> for Pays<B> {
    ghost use Rattle.gl_table.specs.Told.{PaidLeft};

    ghost then = { λ s v n w. PaidLeft B.object B.held B.event.state B.view v.1 w };
}

pub struct Commits<B>(PhantomData<B>);

impl<B: Told> Play<Slot, Know> for Commits<B> {
    ghost use Rattle.gl_table.specs.Told.{PublishedTx};

    ghost then = { λ s v n w. PublishedTx B.event.shelf B.tx B.event.state B.view v.1 n w };
}

pub struct SeesCell<B>(PhantomData<B>);

impl<B: Told> Play<Slot, Know> for SeesCell<B> {
    ghost use Rattle.gl_rule.specs.Objects.{capacity};
    ghost use Rattle.gl_rule.specs.Told.{SawCell};

    ghost then = { λ s v n w. SawCell (capacity B.key) B.object B.index B.view v.1 n w };
}

pub struct SeesEvent<B>(PhantomData<B>);

impl<B: Told> Play<Slot, Know> for SeesEvent<B> {
    ghost use Rattle.gl_rule.specs.Objects.{capacity};
    ghost use Rattle.gl_rule.specs.Told.{SawEvent};

    ghost then = { λ s v n w. SawEvent (capacity B.key) B.object B.view v.1 n w };
}
