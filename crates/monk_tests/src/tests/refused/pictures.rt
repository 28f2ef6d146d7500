use super::begins;
use crate::tests::jobs::{Expected, Slow};
use monk_commands::Task;
use monk_draw::{Names, TextForm, TextLayout};
use monk_history::Device;
use monk_page::told_names;
use std::test::Fail;

/// A history whose last event is forbidden.
const FORBIDDEN: &[u8] = b"monk 1 PB 2 1 buffer 1\nenter 0 free\nwait 0 0 entry\nenter 0 free\n";

/// How a picture as text is laid out.
const LAYOUT: TextLayout = TextLayout {
    width: TextLayout::USUAL_WIDTH,
    is_ascii: true,
};

pub(super) fn picture_of_three(rt: &HostRuntime) -> Result<bool, Fail> {
    begins(rt, "text_drawn")?;
    let told = told_names(rt.alloc(), "{\"seats\": [\"taker\"]}")?;
    let form = TextForm {
        layout: LAYOUT,
        names: Names::NONE,
    };
    let mut reader = Device::new(Slow::new(FORBIDDEN));
    let mut drawn = Expected::new(b"PB, ");
    let mut writer = Device::new(&mut drawn);
    let status = Task::DrawText(None, form).stream(rt.alloc(), &mut reader, &mut writer)?;
    Ok(status == 1 && told.seats.len() == 1)
}
