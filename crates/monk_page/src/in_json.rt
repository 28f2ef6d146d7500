//! Things that have a JSON value, and write it.

ghost use Rattle.std.specs.Prelude.{◌≡◌, [], IfOk, OnOk, string_bytes};
ghost use Rattle.json.specs.{Lex.tokens, Print.print};
ghost use Rattle.serde_json.specs.Data.{Data, string};
ghost use Rattle.monk_page.specs.Json.{list_json, number_json, option_json};
ghost use Rattle.monk_page.specs.Writes.{AddsMember, AddsValue};

use json::Writer;
use std::alloc::{AllocError, Global};

/// A JSON text that is being written.
#[derive(Drop)]
pub struct JsonText {
    /// The memory for what is put together before it is written.
    pub(crate) alloc: Global,
    /// The writer, with what was written so far.
    pub(crate) writer: Writer,
}

impl JsonText {
    /// Returns a text of which nothing is written.
    pub(crate) fn new(alloc: Global) -> JsonText
        ensures before { result.writer.before ≡ [] }
        ensures tokens { result.writer.tokens ≡ [] }
    {
        JsonText {
            alloc,
            writer: Writer::new(Vec::new(alloc)),
        }
    }

    /// Returns the text, after all of it is written.
    pub(crate) fn text(self) -> Result<String, AllocError>
        requires { self.writer.before ≡ [] }
        ensures text { IfOk result (λ s. string_bytes s ≡ print self.writer.tokens) }
        ensures reads_back { tokens (print self.writer.tokens) ≡ self.writer.tokens }
    {
        let JsonText { alloc, writer } = self;
        let bytes = writer.into_inner();
        match simdutf8::compat::from_utf8(&bytes) {
            Ok(text) => String::from_str(alloc, text),
            // A writer writes UTF-8.
            Err(_) => unreachable!(),
        }
    }
}

/// A thing that has a JSON value.
pub trait InJson {
    // The value, as data.
    ghost json: { Self → Data };

    /// Writes the value.
    ///
    /// # Errors
    ///
    /// `AllocError` if a request for memory was refused.
    fn write(&self, out: &mut JsonText) -> Result<(), AllocError>
        ensures { OnOk result (AddsValue (json self.now) out.old.writer out.new.writer) };
}

impl InJson for u8 {
    ghost json = { number_json };

    #[tactic(auto, using(crate::proofs::WriteLaws::number_reads))]
    fn write(&self, out: &mut JsonText) -> Result<(), AllocError> {
        out.writer.u64(u64::from(*self))
    }
}

impl InJson for u64 {
    ghost json = { number_json };

    #[tactic(auto, using(crate::proofs::WriteLaws::number_reads))]
    fn write(&self, out: &mut JsonText) -> Result<(), AllocError> {
        out.writer.u64(*self)
    }
}

impl InJson for &str {
    ghost json = { λ s. string s.now };

    fn write(&self, out: &mut JsonText) -> Result<(), AllocError> {
        out.writer.string(*self)
    }
}

/// Null if there is none.
impl<T: InJson> InJson for Option<T> {
    ghost json = { option_json T.json };

    fn write(&self, out: &mut JsonText) -> Result<(), AllocError> {
        match self {
            Some(some) => some.write(out),
            None => out.writer.null(),
        }
    }
}

impl<T: InJson> InJson for Vec<T> {
    ghost json = { λ v. list_json T.json v.items };

    fn write(&self, out: &mut JsonText) -> Result<(), AllocError> {
        write_list(out, self)
    }
}

/// Writes the list of the values of these items.
pub(crate) fn write_list<T: InJson>(out: &mut JsonText, items: &[T]) -> Result<(), AllocError>
    ensures { OnOk result (AddsValue (list_json T.json items.now) out.old.writer out.new.writer) }
{
    out.writer.begin_array()?;
    for item in items {
        item.write(out)?;
    }
    out.writer.end_array()
}

/// Writes a member of an object.
pub(crate) fn member<T: InJson>(out: &mut JsonText, name: &str, value: &T) -> Result<(), AllocError>
    ensures { OnOk result (AddsMember name.now (T.json value.now) out.old.writer out.new.writer) }
{
    out.writer.key(name)?;
    value.write(out)
}
