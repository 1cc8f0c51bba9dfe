//! The lines of the modules.
ghost use Rattle.std.specs.Prelude.{◌≡◌, ◌+◌, ◌≤◌, [], length, slice_index};
ghost use Rattle.m17_io.specs.Faults.{HasCause};
ghost use Rattle.m17_serve.specs.Lines.{module_line, module_lines};
ghost use Rattle.m17_serve.specs.Steps.{Prints};

use m17_io::Sink;
use m17_print::Line;
use m17_values::Failed;

// Makes the line of a module.
fn make_line(line: &mut Line, letter: u8, admitted: u64, missed: u64)
    ensures { line.new ≡ module_line letter admitted missed }
{
    line.clear();
    line.push_byte(letter);
    line.push_text(" admitted ");
    line.push_number(admitted);
    line.push_text(" missed ");
    line.push_number(missed);
    line.push_byte(b'\n');
}

// The count of the module with this number.
fn count_of(counts: &[u64], number: usize) -> u64
    ensures { result ≡ slice_index counts.now number }
{
    match counts.get(number) {
        Some(count) => *count,
        None => 0,
    }
}

// Writes the line of each module, in order of letters.
pub(crate) fn print_modules<K: Sink>(
    letters: &[u8],
    admitted: &[u64],
    missed: &[u64],
    out: &mut K,
) -> Result<(), Failed>
    ensures cause { HasCause (K.told out.old).faults (K.told out.new).faults result }
    ensures prints { Prints result (module_lines letters.now admitted.now missed.now)
        (K.told out.old).written (K.told out.new).written }
{
    let mut line = Line::new();
    for number in 0..letters.len() {
        make_line(
            &mut line,
            letters[number],
            count_of(admitted, number),
            count_of(missed, number),
        );
        match out.write(line.bytes()) {
            Ok(()) => {}
            Err(failed) => return Err(failed),
        }
    }
    Ok(())
}
