//! The colours of tasks.
ghost use Rattle.std.specs.Prelude.{◌≡◌};
ghost use Rattle.schedule_picture.specs.Colours.{colour_of, waiting_colour, IsNoTasksColour};

/// Light colours, so that a name can be read on each, seven bytes for each of them.
const PALETTE: &[u8; 168] =
    b"#a6cee3#fdbf6f#b2df8a#a5ebe3#cab2d6#ffff99#8dd3c7#f4cae4#d9c3a5#9ec9ff#c7e89c#ffc9a3#7fc8d9#e8d174#8fd19e#94a8d8#b59ad0#e3e36b#66c2a5#e5a0c8#bfa27c#77a8e6#a3cf62#ffab73";

/// The colour of a task, by its number.
#[tactic(auto, unfolding(crate::specs::Colours::colour_of))]
pub(crate) fn colour_of(t: u32) -> &'static [u8]
    ensures { result.now ≡ colour_of t }
{
    let at = 7 * (t as usize % 24);
    let palette: &'static [u8] = PALETTE;
    &palette[at..at + 7]
}

/// A bar of a task is never red, as that of a wait is.
pub fn no_task_is_red()
    ensures { IsNoTasksColour waiting_colour }
{}
