//! Completes a log to a history.

ghost use Rattle.std.specs.Prelude.{◌≡◌, ◌≤◌, ◌<◌, IfOk, OnOk, IsErrOf, length};
ghost use Rattle.monk_kinds.specs.Kind.{IsKind};
ghost use Rattle.monk_object.specs.Names.{most};
ghost use Rattle.monk_history.specs.{Limits.most_lines, Meaning.Monitor.monitor};
ghost use Rattle.monk_completion.specs.{Made.IsMadeAs, Stand.verdict_on};
ghost use Rattle.monk_completion.specs.Completion.{IsCompletionOf, IsFound, verdict_in};
ghost use Rattle.monk_completion.specs.Verdict.{FitsExactly, MisfitsExactly, log_monitor};

use crate::completion::Completion;
use crate::ending::end;
use crate::judging::judge_line;
use crate::pending::Pending;
use crate::setting::MonitorSetting;
use monk_audit::{AuditFault, Replay, rules_by_name};
use monk_kinds::KindName;
use monk_logs::{LogHeader, LogLine};
use monk_object::{Book, Buffer, Flags, Guarded, ObjectFault, ObjectName, Shop};
use std::alloc::{AllocError, Global};

/// Judges the lines one after the other, with the object in its opening state.
fn follow<T: Guarded>(
    object: T,
    setting: MonitorSetting,
    lines: &[LogLine],
) -> Result<Completion, AllocError>
    requires few { length lines.now ≤ most_lines }
    requires kind { IsKind setting.rules }
    ensures { IfOk result (IsFound
        (monitor setting.rules setting.seats setting.conds T.meaning (T.state object)) lines.now) }
{
    let mut object = object;
    let mut replay = Replay::opening(setting.alloc, setting.seats, setting.conds)?;
    let mut events = Vec::new(setting.alloc);
    let mut pending = Pending::Settled;
    for (i, line) in lines.iter().enumerate() {
        match judge_line(
            setting,
            &mut replay,
            &mut object,
            &mut events,
            pending,
            *line,
        )? {
            Ok(left) => pending = left,
            Err(blame) => {
                let line = i as u32 + 1;
                return Ok(Completion::Misfit { line, blame });
            }
        }
    }
    end(setting, &replay, &object, pending, &mut events)?;
    Ok(Completion::History(events))
}

/// Judges the lines over the object, if it was made as the header names it.
fn complete_over<T: Guarded>(
    alloc: Global,
    header: &LogHeader,
    object: Result<T, ObjectFault>,
    lines: &[LogLine],
    kind: KindName,
) -> Result<Completion, AuditFault>
    requires made { IsMadeAs header.now T.meaning T.state object }
    requires few { length lines.now ≤ most_lines }
    ensures found { IfOk result (IsFound (log_monitor kind header.now) lines.now) }
    ensures made { OnOk result (header.now.size ≤ most header.now.object) }
    ensures object { IsErrOf result AuditFault.Object → most header.now.object < header.now.size }
    ensures too_big { most header.now.object < header.now.size → IsErrOf result AuditFault.Object }
{
    let setting = MonitorSetting {
        alloc,
        rules: rules_by_name(kind),
        seats: header.seats(),
        conds: header.conds(),
    };
    Ok(follow(object?, setting, lines)?)
}

/// Returns a history of a monitor of the kind that tells the log, with queues in order of arrival and the
/// object of the log's header. If there is none, returns the first line with which no such history begins.
///
/// The history is legal, and a recorder of it would write the log. A log may leave two things open
/// at its end. If it ends with a release, the history's last choice is the one that the kind's
/// rules make without a wish. The caller stays if it must. Otherwise the choice is entry if nobody
/// waits inside, else a waiter if the priorities permit, else a signaller. If the log ends with a
/// signal under immediate return, the signaller leaves, and the history tells one line more. A task
/// that isn't the first to come in is written as handed over, as it always may be.
///
/// # Errors
///
/// [`AuditFault::Object`] exactly if the size is above the object's greatest.
/// [`AuditFault::Memory`] if a request for memory was refused.
///
/// # Cost
///
/// One pass. The time of a line doesn't depend on the length of the log: at most one look at each
/// seat that waits until a predicate holds, and one move of each seat of a queue. Memory is needed
/// for the events, the queues and the object.
pub fn complete(
    alloc: Global,
    header: &LogHeader,
    lines: &[LogLine],
    kind: KindName,
) -> Result<Completion, AuditFault>
    requires { length lines.now ≤ most_lines }
    // A history that is returned is legal, and tells the log.
    ensures completes { IfOk result (IsCompletionOf (log_monitor kind header.now) lines.now) }
    // One is returned exactly if some legal history begins with the log.
    ensures fits { IfOk result (λ c. FitsExactly (log_monitor kind header.now) lines.now (verdict_in c)) }
    // The log misfits exactly at the first line with which none begins.
    ensures misfit { IfOk result (λ c. MisfitsExactly (log_monitor kind header.now) lines.now (verdict_in c)) }
    // The reason, and all else, is as it is found line by line.
    ensures verdict { IfOk result (λ c. verdict_in c ≡ verdict_on (log_monitor kind header.now) lines.now) }
    // The size is refused exactly if it is above the object's greatest.
    ensures made { OnOk result (header.now.size ≤ most header.now.object) }
    ensures object { IsErrOf result AuditFault.Object → most header.now.object < header.now.size }
    ensures too_big { most header.now.object < header.now.size → IsErrOf result AuditFault.Object }
{
    complete_named(alloc, header, lines, kind)
}

/// Makes the object that the header names, and judges the lines.
fn complete_named(
    alloc: Global,
    header: &LogHeader,
    lines: &[LogLine],
    kind: KindName,
) -> Result<Completion, AuditFault>
    requires { length lines.now ≤ most_lines }
    ensures found { IfOk result (IsFound (log_monitor kind header.now) lines.now) }
    ensures made { OnOk result (header.now.size ≤ most header.now.object) }
    ensures object { IsErrOf result AuditFault.Object → most header.now.object < header.now.size }
    ensures too_big { most header.now.object < header.now.size → IsErrOf result AuditFault.Object }
{
    let size = header.size();
    match header.object() {
        ObjectName::Buffer => {
            let buffer = Buffer::make(alloc, size);
            complete_over(alloc, header, buffer, lines, kind)
        }
        ObjectName::Book => {
            let book = Book::make(size);
            complete_over(alloc, header, book, lines, kind)
        }
        ObjectName::Shop => {
            let shop = Shop::make(size);
            complete_over(alloc, header, shop, lines, kind)
        }
        ObjectName::Flags => {
            let flags = Flags::make(size);
            complete_over(alloc, header, flags, lines, kind)
        }
    }
}
