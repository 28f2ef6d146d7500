//! The commands of the program: their words and their help.

use crate::word::{Form, Word};
use clap::builder::ValueParser;

/// A command. Its help says what it does. Then come an example, exit statuses, and what to read.
#[derive(Clone, Copy)]
pub(crate) struct CommandWords {
    pub(crate) name: &'static str,
    pub(crate) words: &'static [Word],
    pub(crate) about: &'static str,
    pub(crate) example: &'static str,
}

const KINDS: [&str; 10] = [
    "PB", "NPB", "PNB", "NPNB", "PQB", "NPQB", "PIR", "NPIR", "PIS", "NPIS",
];

const SAMPLES: [&str; 3] = ["buffer", "book", "shop"];

const PRIORITY: Form = Form::Required(ValueParser::Signed(0, 255));

const PRIORITY_HELP: &str = "A priority, 0 to 255; greater is higher";

const FILE: Word = Word(
    "FILE",
    Form::Optional,
    "The text; with none or with `-`, standard input",
);

const FILES: Word = Word(
    "FILE",
    Form::Several,
    "The texts, any number of them; with none or with `-`, standard input",
);

const ONE_OF_TEN: Form = Form::Chosen("KIND", ValueParser::Names(&KINDS));

const ONE_KIND: Word = Word("kind", ONE_OF_TEN, "Judge a history under this kind alone");

const MEANS: Word = Word(
    "means",
    Form::Repeated("COND=PRED"),
    "In a log, threads that wait on the condition wait for the predicate",
);

const NUMBER: Form = Form::Chosen("N", ValueParser::Signed(0, 4_294_967_295));

const FROM: Word = Word("from", NUMBER, "The first event to show");

const TO: Word = Word("to", NUMBER, "The last event to show");

const KIND: Word = Word(
    "KIND",
    Form::Required(ValueParser::Names(&KINDS)),
    "The kind of monitor",
);

const SAMPLE: Word = Word(
    "SAMPLE",
    Form::Required(ValueParser::Names(&SAMPLES)),
    "What the threads do",
);

const SEATS: Word = Word(
    "SEATS",
    Form::Required(ValueParser::Signed(2, 16)),
    "How many seats, 2 to 16",
);

const ROUNDS: Word = Word(
    "ROUNDS",
    Form::Required(ValueParser::Signed(1, 1000)),
    "How often, 1 to 1000",
);

/// The commands, in the order of the help.
pub(crate) static COMMANDS: [CommandWords; 13] = [
    CommandWords {
        name: "classify",
        words: &[
            Word("ENTRY", PRIORITY, PRIORITY_HELP),
            Word("WAITER", PRIORITY, PRIORITY_HELP),
            Word("SIGNALLER", PRIORITY, PRIORITY_HELP),
        ],
        about: "Names the ordering of three priorities, and its kind",
        example: "Example: monk classify 1 3 2\n\
            Status: 0 answered; 3 wrong words, 4 a failed file or no memory\n\
            Read: docs/MONITORS.md",
    },
    CommandWords {
        name: "audit",
        words: &[FILE],
        about: "Tells whether a history is legal",
        example: "Example: monk audit examples/hoare_handover.history\n\
            Status: 0 legal, 1 forbidden, 2 unreadable; 3 wrong words, 4 a failed file or no memory\n\
            Read: docs/TEXT.md",
    },
    CommandWords {
        name: "play",
        words: &[FILE],
        about: "Plays a script of atomic steps",
        example: "Example: monk play examples/ticket_at_the_drop.play\n\
            Status: 0 played, 2 unreadable; 3 wrong words, 4 a failed file or no memory\n\
            Read: docs/TEXT.md",
    },
    CommandWords {
        name: "upgrade",
        words: &[FILE],
        about: "Writes the same history in a version that has every event",
        example: "Example: monk upgrade examples/hoare_handover.history\n\
            Status: 0 written, 2 unreadable; 3 wrong words, 4 a failed file or no memory\n\
            Read: docs/TEXT.md",
    },
    CommandWords {
        name: "fit",
        words: &[
            ONE_KIND,
            MEANS,
            Word("json", Form::Flag, "Of each log one line of JSON"),
            FILES,
        ],
        about: "Judges logs, a line for each, or a history under each of the ten kinds",
        example: "Example: monk fit logs/*.log\n\
            Example: monk fit --means 0=0 --means 1=1 examples/threads_at_a_buffer.log\n\
            Status, the worst of all files: 0 fits, 1 misfits, misses a signal or ends busy, 2 unreadable;\n\
            of a history 0 legal under a kind, 1 under none; 3 wrong words, 4 a failed file or no memory\n\
            Read: docs/LOGS.md",
    },
    CommandWords {
        name: "trace",
        words: &[FILE],
        about: "Tells what each step of a play came to",
        example: "Example: monk trace examples/ticket_at_the_drop.play\n\
            Status: 0 traced, 2 unreadable; 3 wrong words, 4 a failed file or no memory\n\
            Read: docs/TEXT.md",
    },
    CommandWords {
        name: "explain",
        words: &[ONE_KIND, MEANS, FILE],
        about: "Tells how a history or a log is judged, how things stand, and what is wrong",
        example: "Example: monk explain examples/hoare_handover_under_mesa.history\n\
            Example: monk explain examples/if_for_while.log\n\
            Status: 0 legal, 1 forbidden, 2 unreadable; 3 wrong words, 4 a failed file or no memory.\n\
            Of a log 0 fits, 1 misfits, misses a signal or ends busy\n\
            Read: docs/TEXT.md, of logs docs/LOGS.md",
    },
    CommandWords {
        name: "draw",
        words: &[
            FROM,
            TO,
            Word(
                "text",
                Form::Flag,
                "Draw it as text, with the names that FILE.told has",
            ),
            // 40 columns have room for each event without names.
            Word(
                "width",
                Form::Chosen("N", ValueParser::Signed(40, 1_000_000)),
                "How many columns the text has, 40 or more; 80 where none is told",
            ),
            Word("ascii", Form::Flag, "Draw the text in ASCII"),
            FILE,
        ],
        about: "Draws a history, or a run that tells a log, as a picture",
        example: "Events are numbered from 1. With neither option the picture shows the last 200, or the last 200\n\
            up to the forbidden one; with --from alone the first 2000 from there on; with --to alone the\n\
            last 2000 up to there; with both at most 2000.\n\
            Example: monk draw examples/hoare_handover.history --from 4 --to 7\n\
            Example: monk draw --text examples/mesa_barging.history\n\
            Example: monk draw examples/if_for_while.log\n\
            Status: 0 legal, 1 forbidden, 2 unreadable; 3 wrong words, 4 a failed file or no memory.\n\
            Of a log 0 fits, 1 misfits\n\
            Read: docs/TEXT.md, of logs docs/LOGS.md",
    },
    CommandWords {
        name: "page",
        words: &[FROM, TO, FILES],
        about: "Makes a page of a history or a log: its picture, and how things stand at each step",
        example: "Events are numbered and chosen as by monk draw. Of 2 to 4 histories it makes one page.\n\
            FILE.told beside a history has names and data that the page shows.\n\
            Example: monk page examples/hoare_handover.history > page.html\n\
            Example: monk page examples/if_for_while.log > page.html\n\
            Status: 0 legal, 1 forbidden, 2 unreadable; 3 wrong words, 4 a failed file or no memory.\n\
            Of a log 0 fits, 1 misfits\n\
            Read: docs/TEXT.md, of logs docs/LOGS.md",
    },
    CommandWords {
        name: "complete",
        words: &[
            Word(
                "kind",
                ONE_OF_TEN,
                "Write a history of a monitor of this kind, with queues in order of arrival",
            ),
            FILE,
        ],
        about: "Turns a log into a run that tells it, or into a history of a given kind",
        example: "Example: monk complete examples/if_for_while.log\n\
            Example: monk complete --kind NPNB examples/threads_at_a_buffer.log\n\
            Status: 0 completed, 1 a misfit, 2 unreadable; 3 wrong words, 4 a failed file or no memory\n\
            Read: docs/LOGS.md",
    },
    CommandWords {
        name: "run",
        words: &[KIND, SAMPLE, SEATS, ROUNDS],
        about: "Runs a sample in threads, and prints its totals",
        example: "Example: monk run NPQB buffer 8 100\n\
            Status: 0 legal, 1 tired, late or busy; 3 wrong words, 4 a failed file or no memory\n\
            Read: docs/SAMPLES.md",
    },
    CommandWords {
        name: "record",
        words: &[KIND, SAMPLE, SEATS, ROUNDS],
        about: "Runs a sample in threads, and writes its history",
        example: "Example: monk record PB shop 4 10\n\
            Status: 0 written, 1 tired, late or busy; 3 wrong words, 4 a failed file or no memory\n\
            Read: docs/SAMPLES.md",
    },
    CommandWords {
        name: "hasty",
        words: &[
            KIND,
            SEATS,
            ROUNDS,
            Word(
                "FILE",
                Form::Optional,
                "Where to write the history of this very run; with none, nowhere",
            ),
        ],
        about: "Runs a buffer in haste, with an `if` for a `while`, and tells what came too late",
        example: "Example: monk hasty NPNB 4 200 hasty.history\n\
            The history is written before anything is printed. `first` is the step of the first refused act.\n\
            Status: 0 legal, 1 tired, late or busy; 3 wrong words, 4 a failed file or no memory\n\
            Read: docs/SAMPLES.md",
    },
];
