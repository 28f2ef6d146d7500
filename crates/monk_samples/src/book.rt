//! Readers and writers: several read at once, one writes alone. A reader begins and ends with a visit each, and so
//! does a writer. Each reads or writes outside the monitor between the two.
ghost use Rattle.std.specs.Prelude.{◌≡◌, ◌≤◌, [], ◌∷◌};
ghost use Rattle.monk_object.specs.Book.{book_meaning};
ghost use Rattle.monk_samples.specs.Members.{begins_to_read, ends_to_read, begins_to_write, ends_to_write, ends_to_write_for_all};
ghost use Rattle.monk_samples.specs.Styles.{Offers};
ghost use Rattle.monk_samples.specs.Visits.{HasVisited};

use crate::end::End;
use crate::style::Style;
use crate::styles::waking::wake_all_and_leave;
use crate::visit::{Visit, act_and_finish, act_now, act_when};
use monk_hall::{Hall, Pass};
use monk_kinds::{NonBlocking, Pick};
use monk_object::{Book, Guarded, Op};
use std::sync::Wait;

/// The condition on which seats wait until a read may start.
const CAN_READ: u8 = 0;

/// The condition on which seats wait until a write may start.
const CAN_WRITE: u8 = 1;

/// The operation that ends a write.
const END_OF_WRITE: Op = Op {
    code: Book::END_WRITE,
    arg: 0,
};

/// Begins to read, when nobody writes, and lets the next reader go on.
pub fn read_begin<K: Style, R: Wait>(
    pass: Pass<K, Book>,
    rt: &R,
    hall: &Hall<K, Book>,
) -> (Pass<K, Book>, End)
    requires hall { pass.hall ≡ hall.now.id }
    requires conds { Offers K.rules pass.me.setting.conds 2 }
    ensures { HasVisited K.rules book_meaning pass (begins_to_read ∷ []) result.0 result.1 }
{
    begin_read(pass, rt, hall)
}

/// Begins to read, over an object with the meaning of a book.
pub(crate) fn begin_read<K: Style, T: Guarded, R: Wait>(
    pass: Pass<K, T>,
    rt: &R,
    hall: &Hall<K, T>,
) -> (Pass<K, T>, End)
    requires book { T.meaning ≡ book_meaning }
    requires hall { pass.hall ≡ hall.now.id }
    requires conds { Offers K.rules pass.me.setting.conds 2 }
    ensures { HasVisited K.rules T.meaning pass (begins_to_read ∷ []) result.0 result.1 }
{
    let start = Op {
        code: Book::START_READ,
        arg: 0,
    };
    let visit = Visit {
        cond: CAN_READ,
        pred: Book::CAN_READ,
        op: start,
        next: CAN_READ,
    };
    act_and_finish(pass, rt, hall, visit)
}

/// Ends its read. The last reader lets a writer go on if one waits. Otherwise it lets a reader go on.
pub fn read_end<K: Style, R: Wait>(
    pass: Pass<K, Book>,
    rt: &R,
    hall: &Hall<K, Book>,
) -> (Pass<K, Book>, End)
    requires hall { pass.hall ≡ hall.now.id }
    requires conds { Offers K.rules pass.me.setting.conds 2 }
    ensures { HasVisited K.rules book_meaning pass (ends_to_read K.rules pass.me.setting ∷ []) result.0 result.1 }
{
    end_read(pass, rt, hall)
}

/// Ends its read, over an object with the meaning of a book.
pub(crate) fn end_read<K: Style, T: Guarded, R: Wait>(
    pass: Pass<K, T>,
    rt: &R,
    hall: &Hall<K, T>,
) -> (Pass<K, T>, End)
    requires book { T.meaning ≡ book_meaning }
    requires hall { pass.hall ≡ hall.now.id }
    requires conds { Offers K.rules pass.me.setting.conds 2 }
    ensures { HasVisited K.rules T.meaning pass (ends_to_read K.rules pass.me.setting ∷ []) result.0 result.1 }
{
    let end = Op {
        code: Book::END_READ,
        arg: 0,
    };
    match act_now(pass, rt, hall, end) {
        Ok((active, _)) => {
            let writes = active.holds(Book::CAN_WRITE) && K::waits(&active, CAN_WRITE);
            let next = if writes { CAN_WRITE } else { CAN_READ };
            K::finish(active, rt, hall, next)
        }
        Err(pass) => (pass, End::Tired),
    }
}

/// Begins to write, when nobody reads or writes. It lets nobody go on.
pub fn write_begin<K: Style, R: Wait>(
    pass: Pass<K, Book>,
    rt: &R,
    hall: &Hall<K, Book>,
) -> (Pass<K, Book>, End)
    requires hall { pass.hall ≡ hall.now.id }
    requires conds { Offers K.rules pass.me.setting.conds 2 }
    ensures { HasVisited K.rules book_meaning pass (begins_to_write ∷ []) result.0 result.1 }
{
    begin_write(pass, rt, hall)
}

/// Begins to write, over an object with the meaning of a book.
pub(crate) fn begin_write<K: Style, T: Guarded, R: Wait>(
    pass: Pass<K, T>,
    rt: &R,
    hall: &Hall<K, T>,
) -> (Pass<K, T>, End)
    requires book { T.meaning ≡ book_meaning }
    requires hall { pass.hall ≡ hall.now.id }
    requires conds { Offers K.rules pass.me.setting.conds 2 }
    ensures { HasVisited K.rules T.meaning pass (begins_to_write ∷ []) result.0 result.1 }
{
    let start = Op {
        code: Book::START_WRITE,
        arg: 0,
    };
    match act_when(pass, rt, hall, CAN_WRITE, Book::CAN_WRITE, start) {
        Ok((active, _)) => (active.leave(hall, Pick::Waiter), End::Done),
        Err(pass) => (pass, End::Tired),
    }
}

/// Ends its write. It lets a reader go on if one waits, and otherwise a writer.
pub fn write_end<K: Style, R: Wait>(
    pass: Pass<K, Book>,
    rt: &R,
    hall: &Hall<K, Book>,
) -> (Pass<K, Book>, End)
    requires hall { pass.hall ≡ hall.now.id }
    requires conds { Offers K.rules pass.me.setting.conds 2 }
    ensures { HasVisited K.rules book_meaning pass (ends_to_write K.rules ∷ []) result.0 result.1 }
{
    end_write(pass, rt, hall)
}

/// Ends its write, over an object with the meaning of a book.
pub(crate) fn end_write<K: Style, T: Guarded, R: Wait>(
    pass: Pass<K, T>,
    rt: &R,
    hall: &Hall<K, T>,
) -> (Pass<K, T>, End)
    requires book { T.meaning ≡ book_meaning }
    requires hall { pass.hall ≡ hall.now.id }
    requires conds { Offers K.rules pass.me.setting.conds 2 }
    ensures { HasVisited K.rules T.meaning pass (ends_to_write K.rules ∷ []) result.0 result.1 }
{
    match act_now(pass, rt, hall, END_OF_WRITE) {
        Ok((active, _)) => {
            let next = if K::waits(&active, CAN_READ) {
                CAN_READ
            } else {
                CAN_WRITE
            };
            K::finish(active, rt, hall, next)
        }
        Err(pass) => (pass, End::Tired),
    }
}

/// Ends its write and lets all waiting readers go on, by one signal to all. If no reader waits, it lets a writer go
/// on. It is for kinds whose signaller goes on.
pub fn write_end_all<K: Style + NonBlocking, R: Wait>(
    pass: Pass<K, Book>,
    rt: &R,
    hall: &Hall<K, Book>,
) -> (Pass<K, Book>, End)
    requires hall { pass.hall ≡ hall.now.id }
    requires conds { 2 ≤ pass.me.setting.conds }
    ensures { HasVisited K.rules book_meaning pass (ends_to_write_for_all K.rules ∷ []) result.0 result.1 }
{
    match act_now(pass, rt, hall, END_OF_WRITE) {
        Ok((active, _)) => {
            if K::waits(&active, CAN_READ) {
                return wake_all_and_leave(active, hall, CAN_READ);
            }
            K::finish(active, rt, hall, CAN_WRITE)
        }
        Err(pass) => (pass, End::Tired),
    }
}
