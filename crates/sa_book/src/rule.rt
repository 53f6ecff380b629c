//! The board rule at the table, and the types that stand on it.

ghost use Rattle.std.specs.Prelude.{◌≡◌, [], ◌∷◌};
ghost use Rattle.sa_core.specs.declared.event.Event.TheVariants.{File, Gave};
ghost use Rattle.sa_book.specs.Rule.{Holds};
ghost use Rattle.sa_book.specs.Steps.{Claimed, parting, parted, both, nothing, first_view, drawing, serving, Looked};

use crate::view::{Pages, Terms, View};
use atomic_table::{Join, Play, Seat, Split, Table, TableRule};
use sa_core::{Event, Job, Work};
use std::alloc::Global;
use std::marker::PhantomData;

/// What holds of a board between any two steps.
pub struct BoardRule<W>(PhantomData<W>);

impl<W: Work> TableRule<Option<Pages<W::Part>>, View<W, W::Part>, Terms<W>> for BoardRule<W> {
    ghost holds = { λ terms s. Holds (W.parts terms.job.work) terms s };

    ghost first = { λ terms. first_view terms };
}

pub(crate) struct Claims;

impl<W: Work> Play<Option<Pages<W::Part>>, View<W, W::Part>> for Claims {
    ghost then = { λ s before found after. Claimed before.0 found after.0 × (after.1 ≡ before.1) };
}

pub(crate) struct Draws;

impl<W: Work> Play<Option<Pages<W::Part>>, View<W, W::Part>> for Draws {
    ghost then = { λ s before found after. after ≡ (drawing found before.0, before.1) };
}

pub(crate) struct Looks;

impl<W: Work> Play<Option<Pages<W::Part>>, View<W, W::Part>> for Looks {
    ghost then = { λ s before found after. Looked W.fits before found after };
}

pub(crate) struct Files;

impl<W: Work> Play<Option<Pages<W::Part>>, View<W, W::Part>> for Files {
    ghost then = { λ s before found after. after ≡ (serving File before.0, []) };
}

pub(crate) struct GivesUp;

impl<W: Work> Play<Option<Pages<W::Part>>, View<W, W::Part>> for GivesUp {
    ghost then = { λ s before found after. after ≡ (serving Gave before.0, []) };
}

pub(crate) struct Parts;

impl<W: Work> Split<View<W, W::Part>> for Parts {
    ghost left = { λ v. parting v };

    ghost right = { λ v. parted v };
}

pub(crate) struct Meets;

impl<W: Work> Join<View<W, W::Part>> for Meets {
    ghost both = { λ v w. both v w };

    ghost spent = { nothing };
}

/// What steps on the table: a view, and the slot while it is out.
pub(crate) type Token<W> = Seat<Option<Pages<<W as Work>::Part>>, View<W, <W as Work>::Part>>;

/// The board of a job. Its table has the branch word, the ticket word and the served word, and one slot for the book.
#[derive(Drop)]
pub struct Board<W: Work> {
    pub(crate) table: Table<
        Option<Pages<W::Part>>,
        View<W, W::Part>,
        Terms<W>,
        BoardRule<W>,
        Global,
    >,
    pub(crate) terms: Terms<W>,
    ghost words: { table.shared.table_id.words ≡ 3 },
    ghost slots: { table.shared.table_id.slots ≡ 1 },
    ghost key: { table.shared.key ≡ terms },
}

/// What a closed board leaves: the job, one event for each entry in the order of filing, and the merge of the filed parts.
#[derive(Drop)]
pub struct Book<W: Work> {
    pub job: Job<W>,
    pub history: Vec<Event>,
    pub merged: W::Part,
}

/// A pass to a board. One thread has it; its view says what was done with it.
#[derive(Drop)]
pub struct Pass<W: Work> {
    pub(crate) token: Seat<Option<Pages<W::Part>>, View<W, W::Part>>,
    pub(crate) number: u32,
    pub(crate) spares: u32,
}
