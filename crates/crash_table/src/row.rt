// The rows of the table: the crash states of each device call.
ghost use Rattle.std.specs.Prelude.{◌≡◌, ◌+◌, ◌<◌, ◌≤◌, true, false, length, map, Err, IfOk, IfErr, OnOk, Contains, alloc_error};
ghost use Rattle.crash_states.specs.declared.choice.Choice.TheVariants as choices;
ghost use Rattle.crash_states.specs.Choices.{content_before, content_within, left_by, choices_of};
ghost use Rattle.crash_table.specs.Rows.{IsRowOf, IsNext};
ghost use Rattle.crash_states.specs.declared.row.Found.{Found};
ghost use Rattle.crash_states.specs.Held.{content_of};

use crate::crashed_run::CrashedRun;
use crash_states::{Choice, Contents, CrashFault, Found, Row};
use std::alloc::{AllocError, Allocator};
use std::marker::Model;

/// The rows of a table, one after the other. After an `Err` there is no further row.
#[derive(Drop)]
pub struct Rows<'a, T: CrashedRun<A>, A: Allocator + Copy> {
    alloc: A,
    trial: &'a T,
    contents: Contents<A>,
    next: usize,
    // Whether a row was begun and not finished.
    begun: bool,
}

impl<'a, T: CrashedRun<A>, A: Allocator + Copy> Model for Rows<'a, T, A> {
    ghost use Rattle.std.specs.Prelude.{◌≡◌, false};
    ghost use Rattle.crash_states.specs.Choices.{content_before};
    ghost use Rattle.crash_table.specs.Rows.{RowsValue};
    ghost use Rattle.crash_states.specs.Held.{content_of};
    ghost use Rattle.std.specs.Coded.{codes};

    ghost Value = { RowsValue T };

    ghost coded = { Prim.hlevel (codes, T.code) };

    ghost view = { λ r. record { trial = r.trial.now; next = r.next; failed = r.begun } };

    ghost invariant = { λ r. r.begun ≡ false
        → content_of r.contents ≡ content_before (T.bytes r.trial.now) (T.made r.trial.now) r.next };
}

impl<'a, T: CrashedRun<A>, A: Allocator + Copy> Rows<'a, T, A> {
    /// Returns the rows of a run. Fails only if memory can't be allocated.
    pub fn new(alloc: A, trial: &'a T) -> Result<Self, CrashFault>
        ensures rows { IfOk result (λ rows. rows ≡ record { trial = trial.now; next = 0; failed = false }) }
        ensures memory { IfErr result (λ why. why ≡ CrashFault.Memory alloc_error) }
    {
        match Contents::new(alloc, trial.image()) {
            Ok(contents) => Ok(Rows {
                alloc,
                trial,
                contents,
                next: 0,
                begun: false,
            }),
            Err(_) => Err(CrashFault::Memory(AllocError)),
        }
    }

    /// Returns the next row, or `None` if there is none. There is a row for each device call of the run, in order, and
    /// one for its end. Fails with a cause that the run states (`CrashedRun::cause`). After a failure, each call fails
    /// with `Otherwise`.
    pub fn next(&mut self) -> Result<Option<Row<A>>, CrashFault>
        ensures row { IfOk result (λ next. IsNext T.bytes T.made T.leaves self.old next self.new) }
        ensures trial { self.new.trial ≡ self.old.trial }
        ensures cause { self.old.failed ≡ false
            → IfErr result (λ why. T.may_fail self.old.trial why × (self.new.failed ≡ true)) }
        ensures otherwise { self.old.failed ≡ true → (result ≡ Err CrashFault.Otherwise) × (self.new ≡ self.old) }
    {
        let trial = self.trial;
        if self.begun {
            return Err(CrashFault::Otherwise);
        }
        if self.next > trial.call_count() {
            return Ok(None);
        }
        self.begun = true;
        let Some(number) = self.next.checked_add(1) else {
            return Err(trial.cause(CrashFault::Memory(AllocError)));
        };
        match make_row(self.alloc, trial, &mut self.contents, self.next) {
            Ok(row) => {
                self.next = number;
                self.begun = false;
                Ok(Some(row))
            }
            Err(fault) => Err(trial.cause(fault)),
        }
    }
}

// Returns the row of the call with this index, or of the run's end. Applies the call to the copy of the disk.
fn make_row<T: CrashedRun<A>, A: Allocator + Copy>(
    alloc: A,
    trial: &T,
    contents: &mut Contents<A>,
    index: usize,
) -> Result<Row<A>, CrashFault>
    requires { index ≤ length (T.made trial.now) }
    ensures row { content_of contents.old ≡ content_before (T.bytes trial.now) (T.made trial.now) index
        → IfOk result (IsRowOf (T.bytes trial.now) (T.made trial.now) (T.leaves trial.now) index) }
    ensures after { content_of contents.old ≡ content_before (T.bytes trial.now) (T.made trial.now) index
        → OnOk result (content_of contents.new ≡ content_before (T.bytes trial.now) (T.made trial.now) (index + 1)) }
{
    match trial.calls().get(index) {
        Some(call) => {
            contents.begin(call)?;
            let row = row_of(alloc, trial, contents, index)?;
            contents.end(call)?;
            Ok(row)
        }
        None => row_of(alloc, trial, contents, index),
    }
}

// Returns the row of the call with this index, or of the run's end, for these contents of the disk.
fn row_of<T: CrashedRun<A>, A: Allocator + Copy>(
    alloc: A,
    trial: &T,
    contents: &Contents<A>,
    index: usize,
) -> Result<Row<A>, CrashFault>
    requires { index ≤ length (T.made trial.now) }
    ensures { content_of contents.now ≡ content_within (T.bytes trial.now) (T.made trial.now) index
        → IfOk result (IsRowOf (T.bytes trial.now) (T.made trial.now) (T.leaves trial.now) index) }
{
    let Some(number) = index.checked_add(1) else {
        return Err(CrashFault::Otherwise);
    };
    let number = number as u64;
    Ok(Row {
        number,
        unsynced: contents.unsynced(),
        found: states(alloc, trial, contents, number)?,
    })
}

// Returns each crash state that is tried for the call of this number.
fn states<T: CrashedRun<A>, A: Allocator + Copy>(
    alloc: A,
    trial: &T,
    contents: &Contents<A>,
    number: u64,
) -> Result<Vec<Found, A>, CrashFault>
    ensures each { IfOk result (λ states. (found : Found) → Contains states.items found
        → T.leaves trial.now number (left_by found.choice (content_of contents.now)) found.mark) }
    ensures tried { IfOk result (λ states. map (λ f. f.choice) states.items
        ≡ choices_of (length (content_of contents.now).unsynced)) }
    ensures old { IfOk result (λ states. Contains (map (λ f. f.choice) states.items) choices.Old) }
    ensures new { IfOk result (λ states. 0 < length (content_of contents.now).unsynced
        → Contains (map (λ f. f.choice) states.items) choices.New) }
{
    let tried = contents.choices()?;
    let mut states = Vec::new(alloc);
    for choice in &tried {
        let state = state_of(trial, contents, number, *choice)?;
        states.push(state)?;
    }
    Ok(states)
}

// Returns the crash state that a choice leaves within the call of this number.
fn state_of<T: CrashedRun<A>, A: Allocator + Copy>(
    trial: &T,
    contents: &Contents<A>,
    number: u64,
    choice: Choice,
) -> Result<Found, CrashFault>
    ensures leaves { IfOk result (λ found.
        T.leaves trial.now number (left_by found.choice (content_of contents.now)) found.mark) }
    ensures named { IfOk result (λ found. found.choice ≡ choice) }
{
    let bytes = contents.bytes_of(choice)?;
    let mark = trial.crash(number, &bytes)?;
    Ok(Found { choice, mark })
}
