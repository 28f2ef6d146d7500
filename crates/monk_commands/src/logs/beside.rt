//! The file that a recorder writes beside a log.

ghost use Rattle.std.specs.Prelude.{◌≡◌};
ghost use Rattle.monk_commands.specs.Beside.{says_ended};

/// The row with which a recorder says that the program ended by itself.
const ENDED: &[u8] = b"ended by itself";

/// Whether the program of a log ended by itself: a row of the file beside the log says so. Rows are parted by newlines;
/// the text may be cut anywhere.
///
/// # Cost
///
/// One pass over the file.
pub fn ended_by_itself(beside: &[u8]) -> bool
    ensures { result ≡ says_ended beside.now }
{
    beside.split(|byte| *byte == b'\n').any(|row| row == ENDED)
}
