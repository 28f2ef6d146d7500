//! Pictures as text that options alone can't ask for: of one column, and with names.

use crate::tests::jobs::{Expected, Slow};
use monk_commands::Task;
use monk_draw::{Names, TextForm, TextLayout, Window};
use monk_history::Device;
use monk_page::told_names;
use std::alloc::Global;
use std::test::Fail;

/// A text to draw, and its picture.
#[derive(Clone, Copy)]
struct TextPicture {
    name: &'static str,
    input: &'static [u8],
    form: TextForm<'static>,
    /// The first event that is asked for, if one is.
    from: Option<u32>,
    answer: &'static str,
}

const ONE_COLUMN: TextForm<'static> = TextForm {
    layout: TextLayout {
        width: 1,
        is_ascii: false,
    },
    names: Names::NONE,
};

/// The names of a seat and of two conditions.
const WITH_NAMES: TextForm<'static> = TextForm {
    layout: TextLayout {
        width: 40,
        is_ascii: false,
    },
    names: Names {
        seats: &["guest"],
        conditions: &["room", "item"],
    },
};

/// A signaller that hands over, and waits.
const HANDED: &[u8] =
    b"monk 1 PB 3 2 buffer 1\nenter 0 free\nact 0 1 0 0\nwait 0 1 entry\nenter 2 free\nact 2 0 7 1\nsignal 2 1 waiter 0\nresume 0 waiter\nact 0 1 0 8\nleave 0 signaller 2\nresume 2 signaller\nleave 2 entry\n";

static PICTURES: [TextPicture; 2] = [
    TextPicture {
        name: "one column",
        input: b"monk 1 PB 2 0 buffer 1\nenter 0 free\nleave 0 entry\nenter 1 handed\n",
        form: ONE_COLUMN,
        from: None,
        answer: "PB, 3 events\n\
            step      1\n\
            seat 0    enter\n\
            seat 1\n\
            \n\
            step      2\n\
            seat 0    leave───\n\
            seat 1\n\
            \n\
            step      3\n\
            seat 0 ─┐\n\
            seat 1  └─enter\n",
    },
    TextPicture {
        name: "names",
        input: HANDED,
        form: WITH_NAMES,
        from: Some(6),
        answer: "PB, events 6 to 11, 1 seat outside\n\
            step      6             7\n\
            guest  ∙∙∙∙∙∙∙∙∙∙∙∙∙∙╌┌─resume\n\
            seat 2    signal item─┘══════════\n\
            \n\
            step      8        9       10\n\
            guest     take 7   leave─┐\n\
            seat 2 ══════════════════└─resume\n\
            \n\
            step      11\n\
            guest\n\
            seat 2    leave\n",
    },
];

/// Whether the text has that picture.
fn is_drawn(alloc: Global, picture: &TextPicture) -> bool {
    let Ok(window) = Window::asked(picture.from, None) else {
        return false;
    };
    let mut answer = Expected::new(picture.answer.as_bytes());
    let mut reader = Device::new(Slow::new(picture.input));
    let told = Task::DrawText(window, picture.form).stream(
        alloc,
        &mut reader,
        &mut Device::new(&mut answer),
    );
    matches!(told, Ok(0)) && answer.agrees() && answer.taken == picture.answer.len()
}

#[test]
fn histories_are_drawn_as_text(rt: HostRuntime) -> Result<(), Fail> {
    for picture in PICTURES.iter() {
        if !is_drawn(rt.alloc(), picture) {
            return Err(picture.name)?;
        }
    }
    Ok(())
}

#[test]
fn names_are_told(rt: HostRuntime) -> Result<(), Fail> {
    let told = told_names(
        rt.alloc(),
        "{\"conditions\": [\"room\", \"item\"], \"end\": \"done\"}",
    )?;
    assert!(rt; told.seats.is_empty() && told.conditions.len() == 2);
    Ok(())
}
