//! Why a log isn't judged.

ghost use Rattle.std.specs.Prelude.{◌≡◌, IfOk, string_bytes};
ghost use Rattle.std.specs.List.{list_any};
ghost use Rattle.monk_commands.specs.LogRefused as refused;

use monk_judge::WaitsFor;
use monk_kinds::KindName;
use monk_logs::{LogHeader, LogLine};
use std::alloc::{AllocError, Global};

/// Why a log isn't judged.
#[derive(Clone, Copy)]
pub(crate) enum LogRefusal {
    /// The size is above the object's greatest.
    TooBig,
    /// It should be judged by the rules of this kind. A mutex with condition variables has NPNB's.
    OtherKind(KindName),
    /// The options say what threads wait for, but the log has no act on the object.
    NoActs,
}

/// Whether the line is an act.
fn is_act(line: LogLine) -> bool
    ensures { result ≡ refused.is_act line }
{
    matches!(line, LogLine::Act(..))
}

/// Whether one of the lines is an act.
fn has_act(lines: &[LogLine]) -> bool
    ensures { result ≡ list_any refused.is_act lines.now }
{
    lines.iter().any(|line| is_act(*line))
}

/// Returns the kind that is named, if it is another than NPNB.
fn other_kind(kind: Option<KindName>) -> Option<KindName>
    ensures { result ≡ refused.other_kind kind }
{
    match kind {
        None | Some(KindName::Npnb) => None,
        Some(
            KindName::Pb
            | KindName::Npb
            | KindName::Pnb
            | KindName::Pqb
            | KindName::Npqb
            | KindName::Pir
            | KindName::Npir
            | KindName::Pis
            | KindName::Npis,
        ) => kind,
    }
}

impl LogRefusal {
    /// Returns why the log isn't judged, if it isn't: the first of the reasons that applies.
    pub(crate) fn of(
        kind: Option<KindName>,
        means: &[WaitsFor],
        header: &LogHeader,
        lines: &[LogLine],
    ) -> Option<LogRefusal>
        ensures { result ≡ refused.refusal_of kind means.now header.now lines.now }
    {
        if header.size() > header.object().greatest_size() {
            return Some(LogRefusal::TooBig);
        }
        if let Some(kind) = other_kind(kind) {
            return Some(LogRefusal::OtherKind(kind));
        }
        if !means.is_empty() && !has_act(lines) {
            return Some(LogRefusal::NoActs);
        }
        None
    }

    /// Returns its line.
    pub(crate) fn line(self, alloc: Global) -> Result<String, AllocError>
        ensures { IfOk result (λ text. string_bytes text ≡ refused.refusal_line self) }
    {
        match self {
            LogRefusal::TooBig => String::from_str(alloc, "object\n"),
            LogRefusal::OtherKind(kind) => {
                let kind = kind.as_str();
                let text = format!(in alloc;
                    "refused, monk complete --kind {kind} judges a log by that kind\n"
                )?;
                Ok(text)
            }
            LogRefusal::NoActs => String::from_str(
                alloc,
                "refused, --means asks what the object holds, but the log tells no act on it\n",
            ),
        }
    }
}
