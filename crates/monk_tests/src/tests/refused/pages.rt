use super::begins;
use crate::tests::told_pages::FORBIDDEN_AND_LEGAL;
use monk_audit::AuditFault;
use monk_commands::pages_stream;
use monk_history::{Device, Event, Header, Next, Via};
use monk_kinds::KindName;
use monk_object::ObjectName;
use monk_page::{NOTHING_TOLD, article, check_told, page_of};
use std::io;
use std::test::Fail;

/// A signal that chooses entry over the waiter that it serves.
const WRONG_CHOICE: [Event; 4] = [
    Event::Enter(0, Via::Free),
    Event::Wait(0, 0, Next::Entry),
    Event::Enter(1, Via::Free),
    Event::Signal(1, 0, Next::Entry),
];

pub(super) fn page_of_four(rt: &HostRuntime) -> Result<bool, Fail> {
    begins(rt, "page")?;
    let Some(header) = Header::new(KindName::Pb, 2, 1, ObjectName::Buffer, 1) else {
        return Err(Fail::new("no header"));
    };
    let article = article(rt.alloc(), &header, &WRONG_CHOICE, None, NOTHING_TOLD)?;
    let page = page_of(rt.alloc(), article.as_str()).map_err(AuditFault::from)?;
    Ok(page.as_str().ends_with("</html>\n"))
}

pub(super) fn page_of_two(rt: &HostRuntime) -> Result<bool, Fail> {
    begins(rt, "pages")?;
    let mut nowhere = Device::new(io::sink());
    Ok(pages_stream(rt.alloc(), &FORBIDDEN_AND_LEGAL, None, &mut nowhere)? == 1)
}

pub(super) fn names_of_two(rt: &HostRuntime) -> Result<bool, Fail> {
    begins(rt, "told")?;
    check_told(rt.alloc(), "{\"seats\": [\"taker\", \"putter\"]}")?;
    Ok(true)
}
