//! The writer of what observers read.
ghost use Rattle.std.specs.Prelude.{◌≡◌, ◌++◌, codes, map, OnOk};
ghost use Rattle.std.specs.List.{flat_map, enumerate_from};
ghost use Rattle.schedule_text.specs.ScheduleText.{set_text};
ghost use Rattle.command_line.specs.WatchText.{snapshot_text, observer_line, observers_text};
ghost use Rattle.command_line.specs.Shown.{snapshot_of, reading_of};

use affinity_mask::{OutOfMemory, ProcSet};
use replay::Sighting;
use schedule_board::Picture;
use text_fields::write_number;

/// Appends how many observers there are, a line for each of them, and the end. Refused only when out of memory.
pub(crate) fn write_observers(text: &mut Vec<u8>, sightings: &[Sighting]) -> Result<(), OutOfMemory>
    ensures { OnOk result (text.new.items ≡ text.old.items
        ++ observers_text (map reading_of sightings.now)) }
{
    text.extend_from_slice(b"observers ")?;
    write_number(text, sightings.len() as u64)?;
    text.push(b'\n')?;
    write_lines(text, sightings)?;
    text.extend_from_slice(b"end\n")?;
    Ok(())
}

/// Appends a line for each observer, by its number, which counts from 0.
fn write_lines(text: &mut Vec<u8>, sightings: &[Sighting]) -> Result<(), OutOfMemory>
    ensures { OnOk result (text.new.items ≡ text.old.items
        ++ flat_map observer_line (enumerate_from 0 (map reading_of sightings.now))) }
{
    for (i, sighting) in sightings.iter().enumerate() {
        write_observer(text, i as u64, sighting)?;
    }
    Ok(())
}

/// Appends the line of an observer.
fn write_observer(text: &mut Vec<u8>, number: u64, sighting: &Sighting) -> Result<(), OutOfMemory>
    ensures { OnOk result (text.new.items ≡ text.old.items
        ++ observer_line (number, reading_of sighting.now)) }
{
    text.extend_from_slice(b"observer ")?;
    write_number(text, number)?;
    write_snapshot(text, b" first ", &sighting.first)?;
    write_snapshot(text, b" last ", &sighting.last)?;
    write_snapshot(text, b" told ", &sighting.told)?;
    text.push(b'\n')?;
    Ok(())
}

/// Appends a label, how many entries a picture shows, and which processors are occupied in it.
fn write_snapshot(text: &mut Vec<u8>, label: &[u8], picture: &Picture) -> Result<(), OutOfMemory>
    ensures { OnOk result (text.new.items ≡ text.old.items
        ++ (label.now ++ snapshot_text (snapshot_of picture.now))) }
{
    text.extend_from_slice(label)?;
    write_number(text, picture.count())?;
    text.push(b' ')?;
    let occupied = picture.linked();
    let _valid = occupied.count();
    write_set(text, &occupied)
}

/// Appends the canonical list of a set, or '-' where it is empty.
fn write_set(text: &mut Vec<u8>, set: &ProcSet) -> Result<(), OutOfMemory>
    ensures { OnOk result (text.new.items ≡ text.old.items ++ set_text set.now) }
{
    if set.is_empty() {
        text.push(b'-')?;
        Ok(())
    } else {
        set.write_list(text)
    }
}
